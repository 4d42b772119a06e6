//! What parts of the sites tell, as codes, and how it is put together.
ghost use Rattle.std.specs.Prelude.{◌≡◌, ◌⊎◌, ◌+◌, ◌-◌, ◌<◌, ◌≤◌, ℕ, ℤ, Bool, length, IfOk, OnOk};
ghost use Rattle.std.specs.Prelude.{slice_index_or};
ghost use Rattle.std.specs.Result.{IsOk};
ghost use Rattle.label_field.specs.Limits.{site_limit};
ghost use Rattle.move_energy.specs.Choices.{choice_at};
ghost use Rattle.persistency.specs.Agreeing.{Agree};
ghost use Rattle.strips.specs.Parts.{ArePartCodes, OfParts, FillsPart, IsPartJoined};
ghost use Rattle.strips.specs.Parts.{choice_of_code};
ghost use Rattle.strips.specs.Parts.{coded_at, known_or, part_start as start_of};

use move_energy::Choice;
use std::alloc::{AllocError, Global};

/// The code of what is known of a site.
fn code_of(choice: Choice) -> u8
    ensures { choice_of_code result ≡ choice }
{
    match choice {
        Choice::Open => 0,
        Choice::Zero => 1,
        Choice::One => 2,
    }
}

/// What a code tells of a site.
fn choice_of(code: u8) -> Choice
    ensures { result ≡ choice_of_code code }
{
    match code {
        1 => Choice::Zero,
        2 => Choice::One,
        _ => Choice::Open,
    }
}

/// The codes of what is known of the sites from one on, before another.
pub(crate) fn codes_of(
    alloc: Global,
    known: &[Choice],
    from: usize,
    to: usize,
) -> Result<Vec<u8>, AllocError>
    requires { (from ≤ to) × (to ≤ length known.now) }
    ensures count { IfOk result (λ codes. length codes.items ≡ to - from) }
    ensures each { IfOk result (λ codes. (k : ℕ) → k < to - from →
        coded_at codes.items k ≡ choice_at known.now (from + k)) }
{
    let mut codes = Vec::new(alloc);
    codes.reserve(to - from)?;
    for site in from..to {
        codes.push(code_of(known[site]))?;
    }
    Ok(codes)
}

/// Where a part begins, of parts of so many sites.
pub(crate) fn part_start(sites: usize, size: usize, part: usize) -> usize
    ensures { result ≡ start_of sites size part }
{
    part.saturating_mul(size).min(sites)
}

/// What was known of a site, and else what is told of it.
fn or_told(choice: Choice, told: Choice) -> Choice
    ensures { result ≡ known_or choice told }
{
    match choice {
        Choice::Open => told,
        Choice::Zero | Choice::One => choice,
    }
}

/// Takes over what a part tells of its open sites.
fn join_part(choices: &mut [Choice], from: usize, codes: &[u8])
    requires { from + length codes.now ≤ length choices.old }
    ensures count { length choices.new ≡ length choices.old }
    ensures inside { (k : ℕ) → k < length codes.now → choice_at choices.new (from + k)
        ≡ known_or (choice_at choices.old (from + k)) (coded_at codes.now k) }
    ensures outside { (p : ℕ) → (p < from) ⊎ (from + length codes.now ≤ p) →
        choice_at choices.new p ≡ choice_at choices.old p }
{
    for place in 0..codes.len() {
        let site = from + place;
        choices[site] = or_told(choices[site], choice_of(codes[place]));
    }
}

/// Takes over what the parts tell, each of so many sites. It refuses where a part was refused
/// memory.
pub(crate) fn join_parts(
    choices: &mut [Choice],
    size: usize,
    parts: &[Result<Vec<u8>, AllocError>],
) -> Result<(), AllocError>
    requires few { length choices.old ≤ site_limit }
    requires filled { OfParts (FillsPart (length choices.old) size) parts.now }
    ensures count { length choices.new ≡ length choices.old }
    ensures whole { OnOk result ((i : ℕ) (part : _) → i < length parts.now →
        IsOk (slice_index_or parts.now i part)) }
    ensures joined { OnOk result (OfParts (IsPartJoined size choices.old choices.new) parts.now) }
    ensures agree { (n : ℕ) (E : (ℕ → Bool) → ℤ) → Agree n E (choice_at choices.old) →
        OfParts (λ i. ArePartCodes n E (start_of (length choices.old) size i)
        (start_of (length choices.old) size (i + 1))) parts.now →
        OnOk result (Agree n E (choice_at choices.new)) }
{
    for part in 0..parts.len() {
        let from = part_start(choices.len(), size, part);
        match &parts[part] {
            Ok(codes) => join_part(choices, from, codes),
            Err(_) => return Err(AllocError),
        }
    }
    Ok(())
}
