//! What a pair of two sites costs in a move.
ghost use Rattle.std.specs.Prelude.{◌≡◌, ◌<◌, ◌≤◌, ◌*◌, ◌∷◌, [], pos, ◌≤ℤ◌, true, false, All};
ghost use Rattle.std.specs.Prelude.{length, unsigned_abs};
ghost use Rattle.move_energy.specs.Prelude.{IsWeightIn, IsPair, labelling, label_after, IsMoveOf};
ghost use Rattle.move_energy.specs.Prelude.{IsWithin, IsCost, IsPosed, IsAsked, WhereMeant};
ghost use Rattle.move_energy.specs.Prelude.{pair_cost_limit, surplus_limit, surplus_of, pair_table};

use cost_store::Problem;
use label_energies::Move;
use label_field::Pair;

/// What a pair costs at two labels.
#[derive(Clone, Copy)]
struct Known {
    first: u32,
    second: u32,
    cost: i64,
}

impl Known {
    /// What the pair costs at two labels, which are asked only where they are others than those
    /// that are known.
    fn pair_cost<F: Fn(u32, u32) -> i64 + Sync, V: Fn(u32, u32) -> i64 + Sync>(
        self,
        problem: &Problem<F, V>,
        weight: u32,
        first: u32,
        second: u32,
    ) -> i64
        requires posed { IsPosed F.Fn V.Fn problem.now }
        requires weight { IsWeightIn problem.now.pairs weight }
        requires inside { (first < problem.now.data_cost.labels)
            × (second < problem.now.data_cost.labels) }
        requires known { WhereMeant F.Fn V.Fn problem.now (λ m. self.cost ≡ pos
            (m.smooth_cost weight self.first self.second)) }
        requires range { (pos 0 ≤ℤ self.cost) × (self.cost ≤ℤ pos pair_cost_limit) }
        ensures cost { WhereMeant F.Fn V.Fn problem.now
            (λ m. result ≡ pos (m.smooth_cost weight first second)) }
        ensures range { (pos 0 ≤ℤ result) × (result ≤ℤ pos pair_cost_limit) }
    {
        if first == self.first && second == self.second {
            return self.cost;
        }
        problem.pair_cost(weight, first, second)
    }
}

/// The two labels of an end: where its value is 0, and where it is 1.
#[derive(Clone, Copy)]
struct TwoLabels {
    stays: u32,
    turns: u32,
}

impl TwoLabels {
    /// The labels that a move gives an end of this label.
    fn of(change: Move, label: u32) -> TwoLabels
        ensures { result ≡ record {
          stays = label_after change label false;
          turns = label_after change label true;
        } }
    {
        TwoLabels {
            stays: change.label(label, false),
            turns: change.label(label, true),
        }
    }
}

/// What a pair of this weight costs at the values 00, 01, 10 and 11 of its ends.
fn corner_costs<F: Fn(u32, u32) -> i64 + Sync, V: Fn(u32, u32) -> i64 + Sync>(
    problem: &Problem<F, V>,
    weight: u32,
    first: TwoLabels,
    second: TwoLabels,
) -> [i64; 4]
    requires posed { IsPosed F.Fn V.Fn problem.now }
    requires weight { IsWeightIn problem.now.pairs weight }
    requires first { (first.stays < problem.now.data_cost.labels) ×
        (first.turns < problem.now.data_cost.labels) }
    requires second { (second.stays < problem.now.data_cost.labels) ×
        (second.turns < problem.now.data_cost.labels) }
    ensures table { WhereMeant F.Fn V.Fn problem.now
        (λ m. result ≡ pos (m.smooth_cost weight first.stays
        second.stays) ∷ pos (m.smooth_cost weight first.stays second.turns)
        ∷ pos (m.smooth_cost weight
        first.turns second.stays) ∷ pos (m.smooth_cost weight first.turns second.turns) ∷ []) }
    ensures range { All (IsCost (pos pair_cost_limit)) result }
{
    let neither = problem.pair_cost(weight, first.stays, second.stays);
    let known = Known {
        first: first.stays,
        second: second.stays,
        cost: neither,
    };
    let first_alone = known.pair_cost(problem, weight, first.turns, second.stays);
    let second_alone = known.pair_cost(problem, weight, first.stays, second.turns);
    let turned = Known {
        first: first.stays,
        second: second.turns,
        cost: second_alone,
    };
    let both = turned.pair_cost(problem, weight, first.turns, second.turns);
    [neither, second_alone, first_alone, both]
}

/// What a pair of this weight, whose ends have these labels, costs in a move at the values 00, 01,
/// 10 and 11 of its ends.
pub fn pair_table<F: Fn(u32, u32) -> i64 + Sync, V: Fn(u32, u32) -> i64 + Sync>(
    problem: &Problem<F, V>,
    change: Move,
    weight: u32,
    first: u32,
    second: u32,
) -> [i64; 4]
    requires posed { IsPosed F.Fn V.Fn problem.now }
    requires weight { IsWeightIn problem.now.pairs weight }
    requires inside { (first < problem.now.data_cost.labels)
        × (second < problem.now.data_cost.labels) }
    requires change { IsMoveOf problem.now.data_cost.labels change }
    ensures table { WhereMeant F.Fn V.Fn problem.now (λ m. result ≡ pos (m.smooth_cost weight
        (label_after change first false) (label_after change second false))
        ∷ pos (m.smooth_cost weight (label_after change first false)
        (label_after change second true))
        ∷ pos (m.smooth_cost weight (label_after change first true)
        (label_after change second false))
        ∷ pos (m.smooth_cost weight (label_after change first true)
        (label_after change second true)) ∷ []) }
    ensures range { All (IsCost (pos pair_cost_limit)) result }
    ensures within { All (IsWithin pair_cost_limit) result }
{
    corner_costs(
        problem,
        weight,
        TwoLabels::of(change, first),
        TwoLabels::of(change, second),
    )
}

/// What a pair costs at the values 00, 01, 10 and 11 of its ends.
pub fn term<F: Fn(u32, u32) -> i64 + Sync, V: Fn(u32, u32) -> i64 + Sync>(
    problem: &Problem<F, V>,
    at: &[u8],
    change: Move,
    pair: Pair,
) -> [i64; 4]
    requires posed { IsPosed F.Fn V.Fn problem.now }
    requires pair { IsPair (length at.now) pair }
    requires weight { IsWeightIn problem.now.pairs pair.weight }
    requires asked { IsAsked problem.now at.now change }
    ensures table { WhereMeant F.Fn V.Fn problem.now
        (λ m. result ≡ pair_table m change (labelling at.now) pair) }
    ensures range { All (IsCost (pos pair_cost_limit)) result }
    ensures size { length result ≡ 4 }
{
    let first = u32::from(at[pair.first as usize]);
    let second = u32::from(at[pair.second as usize]);
    pair_table(problem, change, pair.weight, first, second)
}

/// By how much a pair's costs at 01 and 10 are together above those at 00 and 11: below 0 exactly
/// where its term is not regular (Kolmogorov and Zabih, PAMI 2004, section 4.1).
pub fn surplus(table: &[i64; 4]) -> i64
    requires { All (IsCost (pos pair_cost_limit)) table.now }
    ensures value { result ≡ surplus_of table.now }
    ensures range { unsigned_abs result ≤ surplus_limit }
{
    (table[1] + table[2]) - (table[0] + table[3])
}
