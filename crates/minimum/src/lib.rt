//! The least value of a regular energy, and the least assignment with the fewest ones, by one
//! minimum cut (Kolmogorov and Zabih, PAMI 2004, section 3).
#![tactic(auto)]

ghost use Rattle.std.specs.Prelude.{◌≡◌, ◌⊎◌, IfOk, IfErr, length};
ghost use Rattle.pseudo_bool.specs.Energies.{assignment, value_at};
ghost use Rattle.compile_cut.specs.Shown.{IsSmallestLeastAssignment};
ghost use Rattle.cut_ways.specs.declared.solve_error.SolveError.TheVariants.{OutOfMemory};

use compile_cut::compile;
use cut_ways::{Alone, How, SolveError};
use regular::Regular;
use std::alloc::{AllocError, Global};

/// The least value of an energy, and an assignment that has it.
#[derive(Debug, Drop)]
pub struct Minimum {
    /// The least value over all assignments.
    pub value: i64,
    /// The least assignment with the fewest ones: whether each variable is 1, in the order of the
    /// variables.
    pub assignment: Vec<bool>,
}

/// The least value over all assignments of the variables, and of the assignments that have it the
/// one with the fewest ones: its ones are among the ones of each of them. Refuses only where memory
/// runs out.
pub fn minimise(alloc: Global, energy: Regular<'_>) -> Result<Minimum, AllocError>
    ensures count { IfOk result (λ m. length m.assignment.items ≡ energy.entry.variables) }
    ensures best { IfOk result
        (λ m. IsSmallestLeastAssignment energy.entry (assignment m.assignment.items)) }
    ensures value { IfOk result
        (λ m. m.value ≡ value_at energy.entry (assignment m.assignment.items)) }
{
    match minimise_by(alloc, energy, &Alone) {
        Ok(minimum) => Ok(minimum),
        Err(_) => Err(AllocError),
    }
}

/// The minimum that `minimise` answers, its net cut as `how` says. Refuses where memory runs out,
/// and as the cut is refused.
pub fn minimise_by<H: How>(
    alloc: Global,
    energy: Regular<'_>,
    how: &H,
) -> Result<Minimum, SolveError>
    requires { H.ready how.now }
    ensures count { IfOk result (λ m. length m.assignment.items ≡ energy.entry.variables) }
    ensures best { IfOk result
        (λ m. IsSmallestLeastAssignment energy.entry (assignment m.assignment.items)) }
    ensures value { IfOk result
        (λ m. m.value ≡ value_at energy.entry (assignment m.assignment.items)) }
    ensures refused { IfErr result (λ e. (e ≡ OutOfMemory) ⊎ H.refuses how.now e) }
{
    let formula = energy.energy();
    let Ok(compiled) = compile(alloc, energy) else {
        return Err(SolveError::OutOfMemory)
    };
    let mut assignment = how.side(alloc, compiled.net)?;
    assignment.truncate(formula.variables() as usize);
    let value = formula.value(assignment.as_slice());
    Ok(Minimum { value, assignment })
}
