//! Whether the terms that a move makes are regular.
ghost use Rattle.std.specs.Prelude.{◌↔◌, ◌⊎◌, length, IsTrue};
ghost use Rattle.move_energy.specs.Prelude.{IsPair, labelling, IsRegularPair, IsPosed, IsAsked};
ghost use Rattle.move_energy.specs.Prelude.{WhereMeant, Changes, AreTermsTested, IsWeightIn};

use crate::costs::term;
use crate::error::BuildError;
use crate::site_costs::is_regular;
use cost_store::Problem;
use label_energies::Move;
use label_field::Pair;

/// Whether the move can change the label of an end of the pair.
fn can_change_end(at: &[u8], change: Move, pair: Pair) -> bool
    requires { IsPair (length at.now) pair }
    ensures { IsTrue result ↔ (Changes change (labelling at.now pair.first)
        ⊎ Changes change (labelling at.now pair.second)) }
{
    change.can_change(u32::from(at[pair.first as usize]))
        || change.can_change(u32::from(at[pair.second as usize]))
}

/// Whether the term of a pair is regular. That of a pair of which the move can change no end is, so
/// it is not looked at.
fn is_term_regular<F: Fn(u32, u32) -> i64 + Sync, V: Fn(u32, u32) -> i64 + Sync>(
    problem: &Problem<F, V>,
    at: &[u8],
    change: Move,
    pair: Pair,
) -> bool
    requires posed { IsPosed F.Fn V.Fn problem.now }
    requires asked { IsAsked problem.now at.now change }
    requires pair { IsPair (length at.now) pair }
    requires weight { IsWeightIn problem.now.pairs pair.weight }
    ensures { WhereMeant F.Fn V.Fn problem.now
        (λ m. IsTrue result ↔ IsRegularPair m change (labelling at.now) pair) }
{
    if !can_change_end(at, change, pair) {
        return true;
    }
    let table = term(problem, at, change, pair);
    is_regular(&table)
}

/// Tests the term of each pair, and refuses the first that is not regular. Where the smooth costs
/// were stored as a metric each term of each move is (Boykov, Veksler and Zabih, PAMI 2001, section
/// 3), so none is tested.
pub fn test_terms<F: Fn(u32, u32) -> i64 + Sync, V: Fn(u32, u32) -> i64 + Sync>(
    problem: &Problem<F, V>,
    at: &[u8],
    change: Move,
) -> Result<(), BuildError>
    requires posed { IsPosed F.Fn V.Fn problem.now }
    requires asked { IsAsked problem.now at.now change }
    ensures { WhereMeant F.Fn V.Fn problem.now
        (λ m. AreTermsTested m change (labelling at.now) result) }
{
    if problem.smooth_cost.by_metric {
        return Ok(());
    }
    for index in 0..problem.pairs.len() {
        let pair = problem.pairs.get(index);
        if !is_term_regular(problem, at, change, pair) {
            return Err(BuildError::PairNotRegular(index));
        }
    }
    Ok(())
}
