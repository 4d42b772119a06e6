//! What a strip tells, written into the choices.
ghost use Rattle.std.specs.Prelude.{◌≡◌, ◌<◌, ◌≤◌, ℕ, ℤ, Bool, length};
ghost use Rattle.std.specs.List.{All};
ghost use Rattle.move_energy.specs.Choices.{choice_at};
ghost use Rattle.move_energy.specs.declared.choice.Choice.{Choice as AnyChoice};
ghost use Rattle.move_energy.specs.Assignments.{IsSubmodular, IsOver};
ghost use Rattle.persistency.specs.Agreeing.{Agree, ChooseMore, or_else as else_of, choices_or};
ghost use Rattle.persistency.specs.Strips.{Strip, IsStripBounded, choice_of_bounds, told_by};
ghost use Rattle.persistency.specs.Telling.{IsStripListed};

use move_energy::Choice;

/// What two bounds tell of an open site.
fn choice_of_bounds(lower: bool, upper: bool) -> Choice
    ensures { result ≡ choice_of_bounds lower upper }
{
    if lower {
        Choice::One
    } else if upper {
        Choice::Open
    } else {
        Choice::Zero
    }
}

/// A choice, and where nothing is chosen, another.
fn or_else(choice: Choice, other: Choice) -> Choice
    ensures { result ≡ else_of choice other }
{
    match choice {
        Choice::Open => other,
        Choice::Zero | Choice::One => choice,
    }
}

/// Adds what a strip tells: of each of its sites that is still open, what the bounds at the site's
/// place tell. Strips that were bounded with the same choices may be added one after another, in
/// any order.
pub fn add_strip(choices: &mut [Choice], sites: &[u32], lower: &[bool], upper: &[bool])
    requires sites { All (λ p. p < length choices.old) sites.now }
    requires lower { length lower.now ≡ length sites.now }
    requires upper { length upper.now ≡ length sites.now }
    ensures told { (strip : Strip) → IsStripListed sites.now lower.now upper.now strip → (p : ℕ) →
        p < length choices.old →
        choice_at choices.new p ≡ choices_or (choice_at choices.old) (told_by strip) p }
    ensures agree { (n : ℕ) (E : (ℕ → Bool) → ℤ) (start : ℕ → AnyChoice) (strip : Strip) →
        n ≤ length choices.old → IsSubmodular E → IsOver n E
        → IsStripListed sites.now lower.now upper.now strip →
        IsStripBounded n E start strip → Agree n E start → Agree n E (choice_at choices.old) →
        ChooseMore n start (choice_at choices.old) →
        Agree n E (choice_at choices.new) × ChooseMore n start (choice_at choices.new) }
{
    for place in 0..sites.len() {
        let site = sites[place] as usize;
        choices[site] = or_else(choices[site], choice_of_bounds(lower[place], upper[place]));
    }
}
