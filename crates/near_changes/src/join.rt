//! What parts of the sites find, as codes, and how it is put together.
ghost use Rattle.std.specs.Prelude.{◌≡◌, ◌⊎◌, ◌+◌, ◌<◌, ◌≤◌, ℕ, length, IfOk, OnOk, slice_index};
ghost use Rattle.label_energies.specs.declared.change.Move.{Move as AnyMove};
ghost use Rattle.label_energies.specs.Energies.{Instance};
ghost use Rattle.label_field.specs.Limits.{site_limit};
ghost use Rattle.move_energy.specs.declared.choice.Choice.TheVariants.{Zero};
ghost use Rattle.move_energy.specs.Choices.{choice_at};
ghost use Rattle.strips.specs.Parts.{OfParts};
ghost use Rattle.near_changes.specs.SideBySide.{AreZerosOf, AreZeroCodes, HasZeroCode, seen_start};

use crate::opening::Window;
use crate::windows::{PartSizes, seen_window};
use move_energy::Choice;
use std::alloc::{AllocError, Global};

/// The code of a site that is 0 for good, and of one that is to be looked at again.
const ZERO_CODE: u8 = 1;

const OPEN_CODE: u8 = 2;

/// The code of what a part knows of a site.
fn code_of(choice: Choice) -> u8
    ensures { result ≡ 1 → choice ≡ Zero }
{
    match choice {
        Choice::Open => OPEN_CODE,
        Choice::Zero => ZERO_CODE,
        Choice::One => 0,
    }
}

/// The codes of what a part knows of the sites of a window.
pub(crate) fn codes_within(
    alloc: Global,
    choices: &[Choice],
    window: Window,
) -> Result<Vec<u8>, AllocError>
    requires { (window.from ≤ window.to) × (window.to ≤ length choices.now) }
    ensures { IfOk result (λ codes. (k : ℕ) → k < length codes.items →
        slice_index codes.items k ≡ 1 → choice_at choices.now (window.from + k) ≡ Zero) }
{
    let mut codes = Vec::new(alloc);
    codes.reserve((window.to - window.from) as usize)?;
    for site in window.from..window.to {
        codes.push(code_of(choices[site as usize]))?;
    }
    Ok(codes)
}

/// What is known of a site once a part told its code: a 0 stands for good, and what counted as 1 is
/// opened where the part looked at it.
fn joined_choice(choice: Choice, code: u8) -> Choice
    ensures { result ≡ Zero → (choice ≡ Zero) ⊎ (code ≡ 1) }
{
    match choice {
        Choice::Zero => Choice::Zero,
        Choice::Open | Choice::One => match code {
            ZERO_CODE => Choice::Zero,
            OPEN_CODE => Choice::Open,
            _ => choice,
        },
    }
}

/// Takes over what a part found: the codes of the sites from one on.
fn join_part(choices: &mut Vec<Choice>, from: usize, codes: &[u8])
    ensures count { length choices.new.items ≡ length choices.old.items }
    ensures zeros { (p : ℕ) → choice_at choices.new.items p ≡ Zero →
        (choice_at choices.old.items p ≡ Zero) ⊎ HasZeroCode from codes.now p }
{
    let count = codes.len().min(choices.len().saturating_sub(from));
    for place in 0..count {
        let site = from + place;
        choices[site] = joined_choice(choices[site], codes[place]);
    }
}

/// Takes over what each part found. It refuses where a part was refused memory.
pub(crate) fn join_parts(
    choices: &mut Vec<Choice>,
    sizes: PartSizes,
    parts: &[Result<Vec<u8>, AllocError>],
) -> Result<(), AllocError>
    requires few { (length choices.old.items ≤ site_limit) × (length parts.now ≤ site_limit) }
    ensures count { length choices.new.items ≡ length choices.old.items }
    ensures zeros { (m : Instance) (move : AnyMove) (f : ℕ → ℕ) →
        m.sites ≡ length choices.old.items →
        AreZerosOf m move f (choice_at choices.old.items) →
        OfParts (λ i. AreZeroCodes m move f
        (seen_start (length choices.old.items) sizes i)) parts.now →
        AreZerosOf m move f (choice_at choices.new.items) }
{
    for part in 0..parts.len() {
        let seen = seen_window(choices.len() as u32, sizes, part);
        match &parts[part] {
            Ok(codes) => join_part(choices, seen.from as usize, codes),
            Err(_) => return Err(AllocError),
        }
    }
    Ok(())
}
