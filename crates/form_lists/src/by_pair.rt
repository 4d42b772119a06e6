//! By how much each pair's cost rises where one of its ends turns, listed pair by pair: for pairs
//! that have costs of their own. Each pair's costs are asked once a move.
ghost use Rattle.std.specs.Prelude.{◌≡◌, ◌<◌, ◌≤◌, ℕ, pos, ◌-ℤ◌, length, List, OnOk};
ghost use Rattle.std.specs.Prelude.{unsigned_abs, slice_index_or, All};
ghost use Rattle.label_field.specs.PairLists.{IsPair, IsWeightIn};
ghost use Rattle.label_energies.specs.Energies.{Instance, labelling};
ghost use Rattle.label_energies.specs.declared.change.Move.{Move as AnyMove};
ghost use Rattle.cost_store.specs.Limits.{pair_cost_limit};
ghost use Rattle.cost_store.specs.Promises.{IsCost};
ghost use Rattle.cost_store.specs.Posed.{IsPosed, IsAsked, WhereMeant};
ghost use Rattle.move_energy.specs.Terms.{AreTermsTested};
ghost use Rattle.form_lists.specs.PairSides.{AreSidesOf, AreSidesRead, AreSidesSmall, AreAllSmall};

use cost_store::Problem;
use label_energies::Move;
use label_field::Pair;
use move_energy::{BuildError, EndRises, term};
use std::alloc::AllocError;

/// By how much a pair's cost rises where its first end turns, and where its second end turns.
#[derive(Clone, Copy)]
pub(crate) struct PairRises {
    pub(crate) first: EndRises,
    pub(crate) second: EndRises,
}

/// The difference of two of a pair's four costs.
fn difference(table: &[i64; 4], one: usize, other: usize) -> i32
    requires costs { All (IsCost (pos pair_cost_limit)) table.now }
    requires inside { (one < length table.now) × (other < length table.now) }
    ensures value { result ≡ slice_index_or table.now one (pos 0)
        -ℤ slice_index_or table.now other (pos 0) }
    ensures small { unsigned_abs result ≤ pair_cost_limit }
{
    (table[one] - table[other]) as i32
}

/// Asks what a pair costs in a move, and tells the rises at its two ends.
fn sides_of<F: Fn(u32, u32) -> i64 + Sync, V: Fn(u32, u32) -> i64 + Sync>(
    problem: &Problem<F, V>,
    at: &[u8],
    change: Move,
    pair: Pair,
) -> PairRises
    requires posed { IsPosed F.Fn V.Fn problem.now }
    requires asked { IsAsked problem.now at.now change }
    requires pair { IsPair (length at.now) pair }
    requires weight { IsWeightIn problem.now.pairs pair.weight }
    ensures rises { WhereMeant F.Fn V.Fn problem.now
        (λ m. AreSidesOf m change (labelling at.now) pair result) }
    ensures small { AreSidesSmall result }
{
    let table = term(problem, at, change, pair);
    PairRises {
        first: EndRises {
            low: difference(&table, 2, 0),
            high: difference(&table, 3, 1),
        },
        second: EndRises {
            low: difference(&table, 1, 0),
            high: difference(&table, 3, 2),
        },
    }
}

/// Lists the rises at the ends of each pair. It takes 16 bytes a pair.
pub(crate) fn list_sides<F: Fn(u32, u32) -> i64 + Sync, V: Fn(u32, u32) -> i64 + Sync>(
    sides: &mut Vec<PairRises>,
    problem: &Problem<F, V>,
    at: &[u8],
    change: Move,
) -> Result<(), AllocError>
    requires posed { IsPosed F.Fn V.Fn problem.now }
    requires asked { IsAsked problem.now at.now change }
    ensures count { OnOk result (length sides.new.items ≡ length problem.now.pairs.list) }
    ensures small { OnOk result (AreAllSmall sides.new.items) }
    ensures read { OnOk result (WhereMeant F.Fn V.Fn problem.now
        (λ m. AreSidesRead m change (labelling at.now) sides.new.items)) }
{
    sides.clear();
    sides.reserve(problem.pairs.len())?;
    for index in 0..problem.pairs.len() {
        sides.push(sides_of(problem, at, change, problem.pairs.get(index)))?;
    }
    Ok(())
}

/// The rises at the ends of a pair that may be listed under its number. Where another pair is
/// listed there, its costs are asked.
pub(crate) fn sides_known<F: Fn(u32, u32) -> i64 + Sync, V: Fn(u32, u32) -> i64 + Sync>(
    listed: &[PairRises],
    problem: &Problem<F, V>,
    at: &[u8],
    change: Move,
    pair: Pair,
) -> PairRises
    requires posed { IsPosed F.Fn V.Fn problem.now }
    requires asked { IsAsked problem.now at.now change }
    requires pair { IsPair (length at.now) pair }
    requires weight { IsWeightIn problem.now.pairs pair.weight }
    requires count { length listed.now ≡ length problem.now.pairs.list }
    requires small { AreAllSmall listed.now }
    requires read { WhereMeant F.Fn V.Fn problem.now
        (λ m. AreSidesRead m change (labelling at.now) listed.now) }
    ensures rises { WhereMeant F.Fn V.Fn problem.now
        (λ m. AreSidesOf m change (labelling at.now) pair result) }
    ensures small { AreSidesSmall result }
{
    let number = pair.weight as usize;
    if number < listed.len() && problem.pairs.get(number) == pair {
        return listed[number];
    }
    sides_of(problem, at, change, pair)
}

/// Refuses the first pair whose term is not regular: it rises more where the other end is at 1.
pub(crate) fn test_sides(sides: &[PairRises]) -> Result<(), BuildError>
    ensures { (m : Instance) (move : AnyMove) (at : List ℕ) → length sides.now ≡ length m.pairs →
        AreSidesRead m move (labelling at) sides.now →
        AreTermsTested m move (labelling at) result }
{
    for index in 0..sides.len() {
        if sides[index].first.high > sides[index].first.low {
            return Err(BuildError::PairNotRegular(index));
        }
    }
    Ok(())
}
