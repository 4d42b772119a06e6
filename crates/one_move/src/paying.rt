//! What an expansion pays for its own label, once its least values are found.
ghost use Rattle.std.specs.Prelude.{◌≡◌, ◌≢◌, ◌<◌, ◌↔◌, ℕ, ◌+◌, length, IsTrue};
ghost use Rattle.one_move.specs.Prelude.{labelling, labelling_made, plain_energy, choice_at};
ghost use Rattle.one_move.specs.Prelude.{WhereMeant, HasFormOf, IsPriced, site_values};
ghost use Rattle.one_move.specs.Prelude.{IsPricedAnswer};
ghost use Rattle.one_move.specs.Prelude.{AreChangesListed, IsSmallestLeast, made_value};
ghost use Rattle.one_move.specs.Prelude.{KeepsDecided, IsPosed};
ghost use Rattle.move_energy.specs.declared.choice.Choice.TheVariants.{Zero};

use crate::energy_change::{change_of_all, is_negative};
use crate::workspace::Workspace;
use cost_store::Problem;
use label_energies::Move;
use move_energy::Choice;

/// Whether the sites and the pairs save more than a price under the labels that the values make.
fn saves<F: Fn(u32, u32) -> i64 + Sync, V: Fn(u32, u32) -> i64 + Sync>(
    problem: &Problem<F, V>,
    at: &[u8],
    change: Move,
    space: &Workspace,
    price: u32,
) -> bool
    requires form { HasFormOf F.Fn V.Fn problem.now at.now change space.now }
    requires choices { length space.now.built.variables.choices.items ≡ length at.now }
    ensures { WhereMeant F.Fn V.Fn problem.now (λ m. IsTrue result
        ↔ (plain_energy m (labelling_made change (labelling at.now)
        (site_values space.now.built.variables.choices.items)) + price
        < plain_energy m (labelling at.now))) }
{
    let form = space
        .deciding
        .numbers
        .form(&problem.pairs, &space.deciding.ends, at);
    let rise = change_of_all(&form, &space.built.variables.choices);
    is_negative(rise + i64::from(price))
}

/// Gives each site the value 0.
fn clear(choices: &mut Vec<Choice>)
    ensures count { length choices.new.items ≡ length choices.old.items }
    ensures zeros { (p : ℕ) → p < length choices.old.items →
        choice_at choices.new.items p ≡ Zero }
{
    for site in 0..choices.len() {
        choices[site] = Choice::Zero;
    }
}

/// Lets a move pay its price: if what it saves is not more, each site has the value 0, by which an
/// expansion leaves it its label. A price of 0 is always paid.
pub(crate) fn pay<F: Fn(u32, u32) -> i64 + Sync, V: Fn(u32, u32) -> i64 + Sync>(
    problem: &Problem<F, V>,
    space: &mut Workspace,
    at: &[u8],
    change: Move,
    price: u32,
)
    requires posed { IsPosed F.Fn V.Fn problem.now }
    requires price { IsPriced F.Fn V.Fn problem.now at.now change space.old price }
    requires choices { length space.old.built.variables.choices.items ≡ length at.now }
    ensures same { KeepsDecided space.old space.new }
    ensures count { length space.new.built.variables.choices.items ≡ length at.now }
    ensures changes { AreChangesListed change at.now space.old →
        AreChangesListed change at.now space.new }
    ensures answer { WhereMeant F.Fn V.Fn problem.now (λ m. length at.now ≡ m.sites →
        IsPricedAnswer m change (labelling at.now) price
        (site_values space.old.built.variables.choices.items) →
        IsSmallestLeast m.sites (made_value m change (labelling at.now))
        (site_values space.new.built.variables.choices.items)) }
{
    if price == 0 {
        return;
    }
    if saves(problem, at, change, space, price) {
        return;
    }
    clear(&mut space.built.variables.choices);
}
