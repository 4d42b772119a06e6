//! Lists of integers, each in a range.
ghost use Rattle.std.specs.Prelude.{◌≡◌, ◌≤◌, ◌<◌, ◌^◌, map, IfOk, IfErr, All, position, vec_len};
ghost use Rattle.toml.specs.View.{view};
ghost use Rattle.problem_files.specs.ListFields.{integers_or_fault, integer_of, is_out_of_range};
ghost use Rattle.problem_files.specs.ListFields.{is_no_integer, list_from, natural_of};

use crate::label_fault::out_of_range;
use crate::{LabelFault, LabelKey};
use std::alloc::{AllocError, Global};
use toml::Value;

/// The list of numbers that a field's value is: so many, each from 0 to the most.
#[tactic(auto, using(crate::proofs::Listed::items), unfolding(crate::specs::ListFields::list_from))]
pub(crate) fn list_from<'a>(
    value: &'a Value,
    field: LabelKey,
    count: usize,
    most: u32,
) -> Result<&'a Vec<Value>, LabelFault>
    ensures ok { IfOk result (λ v.
        list_from field count most (view value.now) ≡ Ok (map view v.now.items)) }
    ensures refused { IfErr result
        (λ fault. list_from field count most (view value.now) ≡ Err fault) }
    ensures count { IfOk result (λ v. vec_len v.now ≡ count) }
    ensures range { IfOk result (λ v. All (λ item. natural_of (view item) ≤ most) v.now.items) }
{
    let Some(items) = value.as_array() else {
        return Err(LabelFault::BadField(field));
    };
    check(items, field, count, most)?;
    Ok(items)
}

/// Refuses a list of another length, then one with an element that is no integer, then one with an
/// element that is out of range.
#[tactic(auto, unfolding(crate::specs::ListFields::integers_or_fault))]
fn check(items: &Vec<Value>, field: LabelKey, count: usize, most: u32) -> Result<(), LabelFault>
    ensures ok { IfOk result (λ _.
        integers_or_fault field count most (map view items.now.items)
        ≡ Ok (map view items.now.items)) }
    ensures refused { IfErr result (λ fault.
        integers_or_fault field count most (map view items.now.items) ≡ Err fault) }
    ensures count { IfOk result (λ _. vec_len items.now ≡ count) }
    ensures range { IfOk result (λ _. All (λ item. natural_of (view item) ≤ most) items.now.items) }
{
    if items.len() != count {
        return Err(LabelFault::BadField(field));
    }
    if let Some(place) = first_other(items) {
        return Err(LabelFault::BadElement(field, place));
    }
    match first_beyond(items, most) {
        Some(place) => Err(out_of_range(field, place)),
        None => Ok(()),
    }
}

fn first_other(items: &[Value]) -> Option<usize>
    ensures { result ≡ position is_no_integer (map view items.now) }
{
    items.iter().position(|item| is_other(item))
}

fn first_beyond(items: &[Value], most: u32) -> Option<usize>
    ensures { result ≡ position (is_out_of_range most) (map view items.now) }
{
    items.iter().position(|item| is_beyond(item, most))
}

fn is_other(value: &Value) -> bool
    ensures { result ≡ is_no_integer (view value.now) }
{
    value.as_integer().is_none()
}

fn is_beyond(value: &Value, most: u32) -> bool
    ensures { result ≡ is_out_of_range most (view value.now) }
{
    let number = integer_of(value);
    !(0 <= number && number <= i64::from(most))
}

/// The integer that an item is.
pub(crate) fn integer_of(value: &Value) -> i64
    ensures { result ≡ integer_of (view value.now) }
{
    match value.as_integer() {
        Some(number) => number,
        None => 0,
    }
}

/// The number that an item in range is.
pub(crate) fn number_of(value: &Value) -> u32
    requires { natural_of (view value.now) < 2 ^ 32 }
    ensures { result ≡ natural_of (view value.now) }
{
    integer_of(value).unsigned_abs() as u32
}

/// The numbers of a list in range.
pub(crate) fn numbers_of(alloc: Global, items: &Vec<Value>) -> Result<Vec<u32>, AllocError>
    requires { All (λ item. natural_of (view item) < 2 ^ 32) items.now.items }
    ensures { IfOk result (λ numbers. numbers.items ≡ map natural_of (map view items.now.items)) }
{
    let mut numbers = Vec::with_capacity(alloc, items.len())?;
    for item in items {
        numbers.push(number_of(item))?;
    }
    Ok(numbers)
}

/// The integers of a list.
pub(crate) fn integers_of(alloc: Global, items: &Vec<Value>) -> Result<Vec<i64>, AllocError>
    ensures { IfOk result (λ integers. integers.items ≡ map integer_of (map view items.now.items)) }
{
    let mut integers = Vec::with_capacity(alloc, items.len())?;
    for item in items {
        integers.push(integer_of(item))?;
    }
    Ok(integers)
}
