//! The numbers that a field may have.
ghost use Rattle.std.specs.Prelude.{◌≡◌, ◌≤◌, IfOk, option_map};
ghost use Rattle.toml.specs.View.{table_view, view};
ghost use Rattle.toml.specs.Data.{get_member};
ghost use Rattle.problem_files.specs.LabelFieldNames.{field_name};
ghost use Rattle.problem_files.specs.NumberFields.{number_from, number_in, number_or};

use crate::fields::member;
use crate::{LabelFault, LabelKey};
use toml::{Table, Value};

/// The value of a field.
pub(crate) fn value_of<'a>(table: &'a Table, field: LabelKey) -> Option<&'a Value>
    ensures { option_map (λ v. view v.now) result
        ≡ get_member (field_name field) (table_view table.now) }
{
    member(table, field.name())
}

/// The number that a field must be, from the least to the most.
#[tactic(auto, unfolding(crate::specs::NumberFields::number_in))]
pub(crate) fn number_in(
    table: &Table,
    field: LabelKey,
    least: u32,
    most: u32,
) -> Result<u32, LabelFault>
    ensures value { result ≡ number_in (table_view table.now) field least most }
    ensures range { IfOk result (λ number. (least ≤ number) × (number ≤ most)) }
{
    match value_of(table, field) {
        Some(value) => number_from(value, field, least, most),
        None => Err(LabelFault::BadField(field)),
    }
}

/// The number that a field is, from the least to the most, or the default where there is no such
/// field.
#[tactic(auto, unfolding(crate::specs::NumberFields::number_or))]
pub(crate) fn number_or(
    table: &Table,
    field: LabelKey,
    least: u32,
    most: u32,
    default: u32,
) -> Result<u32, LabelFault>
    ensures value { result ≡ number_or (table_view table.now) field least most default }
    ensures range { (least ≤ default) × (default ≤ most) →
        IfOk result (λ number. (least ≤ number) × (number ≤ most)) }
{
    match value_of(table, field) {
        Some(value) => number_from(value, field, least, most),
        None => Ok(default),
    }
}

fn number_from(value: &Value, field: LabelKey, least: u32, most: u32) -> Result<u32, LabelFault>
    ensures value { result ≡ number_from field least most (view value.now) }
    ensures range { IfOk result (λ number. (least ≤ number) × (number ≤ most)) }
{
    let fault = LabelFault::BadField(field);
    let Some(number) = value.as_integer() else {
        return Err(fault);
    };
    match u32::try_from(number) {
        Ok(number) if least <= number && number <= most => Ok(number),
        _ => Err(fault),
    }
}
