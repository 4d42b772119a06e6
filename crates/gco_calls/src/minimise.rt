//! Least assignments.
ghost use Rattle.std.specs.Prelude.{◌≡◌, ◌≢◌, length, map, IfOk, IfErr};
ghost use Rattle.pseudo_bool.specs.Energies.{IsEnergy, assignment, value_at};
ghost use Rattle.compile_cut.specs.Shown.{IsSmallestLeastAssignment};
ghost use Rattle.gco_arrays.specs.Energies.{energy_given};
ghost use Rattle.gco_calls.specs.Minima.{bits, digit_of, IsMinimumTold, IsMinimumRefusal};
ghost use Rattle.gco_calls.specs.Minima.{IsRefusedIn};
ghost use Rattle.gco_calls.specs.Outcomes.{value_told};

use gco_arrays::{GcoOne, GcoThree, GcoTwo, Refusal, energy_of};
use minimum::{Minimum, minimise};
use pseudo_bool::VARIABLE_LIMIT;
use regular::check;
use std::alloc::Global;

/// What a call tells beside its status and its assignment. All of it is written by each call.
#[repr(C)]
#[derive(Clone, Copy)]
pub struct GcoMinimum {
    /// The least value. Else 0.
    pub value: i64,
    /// The place that a refusal names. Else 0.
    pub place: u64,
    /// Of a term of three that is not regular: which of its variables is fixed where it is not, 0,
    /// 1 or 2, and at which value. Else 3 and 0.
    pub fixed: u64,
    pub fixed_at: u64,
}

/// Finds the least assignment with the fewest ones of the energy that was given, and tells its
/// value. The answer is 0, or the status of a refusal, and then the assignment is as it was.
pub fn answer_minimum(
    alloc: Global,
    constant: i64,
    ones: &[GcoOne],
    twos: &[GcoTwo],
    threes: &[GcoThree],
    assignment: &mut [u8],
    minimum: &mut GcoMinimum,
) -> u32
    ensures given { result ≡ 0 →
        IsEnergy (energy_given (length assignment.old) constant ones.now twos.now threes.now) }
    ensures best { result ≡ 0 → IsSmallestLeastAssignment
        (energy_given (length assignment.old) constant ones.now twos.now threes.now)
        (bits assignment.new) }
    ensures value { result ≡ 0 → minimum.new ≡ value_told (value_at
        (energy_given (length assignment.old) constant ones.now twos.now threes.now)
        (bits assignment.new)) }
    ensures unchanged { result ≢ 0 → assignment.new ≡ assignment.old }
    ensures refused { result ≢ 0 → IsMinimumTold
        (energy_given (length assignment.old) constant ones.now twos.now threes.now)
        result minimum.new }
{
    match least(alloc, assignment.len(), constant, ones, twos, threes) {
        Ok(found) => {
            copy_bits(found.assignment.as_slice(), assignment);
            put(minimum, &found);
            0
        }
        Err(refusal) => refuse(minimum, refusal),
    }
}

fn least(
    alloc: Global,
    variables: usize,
    constant: i64,
    ones: &[GcoOne],
    twos: &[GcoTwo],
    threes: &[GcoThree],
) -> Result<Minimum, Refusal>
    ensures given { IfOk result (λ m. IsEnergy
        (energy_given variables constant ones.now twos.now threes.now)) }
    ensures count { IfOk result (λ m. length m.assignment.items ≡ variables) }
    ensures best { IfOk result (λ m. IsSmallestLeastAssignment
        (energy_given variables constant ones.now twos.now threes.now)
        (assignment m.assignment.items)) }
    ensures value { IfOk result (λ m. m.value ≡ value_at
        (energy_given variables constant ones.now twos.now threes.now)
        (assignment m.assignment.items)) }
    ensures refused { IfErr result (IsMinimumRefusal
        (energy_given variables constant ones.now twos.now threes.now)) }
{
    if variables > VARIABLE_LIMIT as usize {
        return Err(Refusal::TooManySites);
    }
    let energy = energy_of(alloc, variables as u32, constant, ones, twos, threes)?;
    let regular = match check(&energy) {
        Ok(regular) => regular,
        Err(failing) => {
            return Err(Refusal::TermNotRegular {
                term: failing.term,
                fixed: failing.fixed,
            });
        }
    };
    match minimise(alloc, regular) {
        Ok(minimum) => Ok(minimum),
        Err(_) => Err(Refusal::OutOfMemory),
    }
}

fn copy_bits(from: &[bool], to: &mut [u8])
    requires { length from.now ≡ length to.old }
    ensures { to.new ≡ map digit_of from.now }
{
    for (place, bit) in from.iter().enumerate() {
        to[place] = digit(*bit);
    }
}

fn digit(bit: bool) -> u8
    ensures { result ≡ digit_of bit }
{
    if bit { 1 } else { 0 }
}

/// Tells a least value, and nothing else.
fn put(minimum: &mut GcoMinimum, found: &Minimum)
    ensures { minimum.new ≡ value_told found.now.value }
{
    *minimum = GcoMinimum {
        value: found.value,
        place: 0,
        fixed: 3,
        fixed_at: 0,
    };
}

/// Tells a refusal, and nothing else.
fn refuse(minimum: &mut GcoMinimum, refusal: Refusal) -> u32
    ensures some { result ≢ 0 }
    ensures told { IsRefusedIn refusal result minimum.new }
{
    let (fixed, fixed_at) = refusal.fixed_numbers();
    *minimum = GcoMinimum {
        value: 0,
        place: refusal.place() as u64,
        fixed,
        fixed_at,
    };
    refusal.status()
}
