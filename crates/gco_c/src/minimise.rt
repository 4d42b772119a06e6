//! Least assignments for C.
ghost use Rattle.std.specs.Prelude.{◌≡◌, ◌≢◌, length};
ghost use Rattle.pseudo_bool.specs.Energies.{IsEnergy, value_at};
ghost use Rattle.compile_cut.specs.Shown.{IsSmallestLeastAssignment};
ghost use Rattle.gco_arrays.specs.Energies.{energy_given};
ghost use Rattle.gco_calls.specs.Minima.{bits, IsMinimumTold};
ghost use Rattle.gco_calls.specs.Outcomes.{value_told};

use gco_arrays::{GcoOne, GcoThree, GcoTwo};
use gco_calls::{GcoMinimum, answer_minimum};
use std::alloc::Global;

/// The least value over all assignments of the variables, and of the assignments that have it the
/// one with the fewest ones. The answer is 0, or the status of a refusal, and then the assignment
/// is as it was.
#[unsafe(no_mangle)]
pub extern "C" fn gco_minimise(
    alloc: Global,
    constant: i64,
    ones: &[GcoOne],
    twos: &[GcoTwo],
    threes: &[GcoThree],
    assignment: &mut [u8],
    minimum: &mut GcoMinimum,
) -> u32
    ensures given { result ≡ 0 →
        IsEnergy (energy_given (length assignment.old) constant ones.now twos.now threes.now) }
    ensures best { result ≡ 0 → IsSmallestLeastAssignment
        (energy_given (length assignment.old) constant ones.now twos.now threes.now)
        (bits assignment.new) }
    ensures value { result ≡ 0 → minimum.new ≡ value_told (value_at
        (energy_given (length assignment.old) constant ones.now twos.now threes.now)
        (bits assignment.new)) }
    ensures unchanged { result ≢ 0 → assignment.new ≡ assignment.old }
    ensures refused { result ≢ 0 → IsMinimumTold
        (energy_given (length assignment.old) constant ones.now twos.now threes.now)
        result minimum.new }
{
    answer_minimum(alloc, constant, ones, twos, threes, assignment, minimum)
}
