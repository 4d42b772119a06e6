//! The least value of a regular energy, whose work is shared out as that of a move: its form is
//! what two labels cost (`form_costs`), and an expansion finds the least assignment.
#![tactic(auto)]

ghost use Rattle.std.specs.Prelude.{◌≡◌, ◌⊎◌, IfOk, IfErr, length};
ghost use Rattle.pseudo_bool.specs.Energies.{assignment, value_at};
ghost use Rattle.compile_cut.specs.Shown.{IsSmallestLeastAssignment};
ghost use Rattle.cut_ways.specs.declared.solve_error.SolveError.TheVariants.{OutOfMemory};

mod by_move;

use by_move::least_by_move;
use cut_ways::{Sharing, SolveError};
use minimum::{Minimum, minimise_by};
use regular::Regular;
use std::alloc::Global;

/// The minimum that `minimise_by` answers, found by one move in parts, side by side, where `how`
/// has parts for a move of so many variables, and the energy's form is what labels cost: at most
/// `SITE_LIMIT` nodes and `PAIR_LIMIT` arcs, no weight and no capacity above 10,000,000. Any other
/// energy, and one whose move is refused, is minimised by one net. Refuses as `minimise_by` does.
pub fn minimise_shared<H: Sharing>(
    alloc: Global,
    energy: Regular<'_>,
    how: &H,
) -> Result<Minimum, SolveError>
    requires { H.ready how.now }
    ensures count { IfOk result (λ m. length m.assignment.items ≡ energy.entry.variables) }
    ensures best { IfOk result
        (λ m. IsSmallestLeastAssignment energy.entry (assignment m.assignment.items)) }
    ensures value { IfOk result
        (λ m. m.value ≡ value_at energy.entry (assignment m.assignment.items)) }
    ensures refused { IfErr result (λ e. (e ≡ OutOfMemory) ⊎ H.refuses how.now e) }
{
    let formula = energy.energy();
    if how.parts(formula.variables() as usize) < 2 {
        return minimise_by(alloc, energy, how);
    }
    let Some(assignment) = least_by_move(alloc, formula, how) else {
        return minimise_by(alloc, energy, how);
    };
    let value = formula.value(assignment.as_slice());
    Ok(Minimum { value, assignment })
}
