//! The fields of a table.
ghost use Rattle.std.specs.Prelude.{◌≡◌, option_map, option_and_then};
ghost use Rattle.toml.specs.View.{array_view, table_view, view};
ghost use Rattle.toml.specs.Data.{get, get_member, as_array};
ghost use Rattle.problem_files.specs.Problem.{constant_in, integers_at, integers_of};
ghost use Rattle.problem_files.specs.Problem.{variables_in};
ghost use Rattle.problem_files.specs.Within.{list_within};

use crate::{EnergyFault, EnergyKey};
use arrayvec::ArrayVec;
use pseudo_bool::{VALUE_LIMIT, VARIABLE_LIMIT};
use toml::{Table, Value};

/// The value at a key.
pub fn member<'a>(table: &'a Table, key: &str) -> Option<&'a Value>
    ensures { option_map (λ v. view v.now) result ≡ get_member key.now (table_view table.now) }
{
    table.get(key)
}

/// How many variables a table names.
pub fn variables_of(table: &Table) -> Result<u32, EnergyFault>
    ensures { result ≡ variables_in (table_view table.now) }
{
    let fault = EnergyFault::BadField(EnergyKey::Variables);
    let number = member(table, EnergyKey::Variables.name()).ok_or(fault)?;
    let number = number.as_integer().ok_or(fault)?;
    match u32::try_from(number) {
        Ok(count) if count <= VARIABLE_LIMIT => Ok(count),
        _ => Err(fault),
    }
}

/// The constant that a table names.
pub fn constant_of(table: &Table) -> Result<i64, EnergyFault>
    ensures { result ≡ constant_in (table_view table.now) }
{
    let Some(value) = member(table, EnergyKey::Constant.name()) else {
        return Ok(0);
    };
    let constant = value
        .as_integer()
        .ok_or(EnergyFault::BadField(EnergyKey::Constant))?;
    if constant.unsigned_abs() > VALUE_LIMIT {
        return Err(EnergyFault::ConstantRange);
    }
    Ok(constant)
}

/// The integers of the array at a key, if it has at most N items, and nothing else.
pub fn integers_at<const N: usize>(value: &Value, key: &str) -> Option<ArrayVec<i64, N>>
    ensures { option_map (λ v. v.items) result
        ≡ option_and_then (list_within N) (integers_at key.now (view
        value.now)) }
{
    integers_of(member(value.as_table()?, key)?.as_array()?)
}

/// The integers of an array, if it has at most N items, and nothing else.
pub fn integers_of<const N: usize>(items: &Vec<Value>) -> Option<ArrayVec<i64, N>>
    ensures { option_map (λ v. v.items) result
        ≡ option_and_then (list_within N) (integers_of (array_view
        items.now)) }
{
    if items.len() > N {
        return None;
    }
    let mut integers = ArrayVec::new();
    for item in items {
        integers.push(item.as_integer()?);
    }
    Some(integers)
}
