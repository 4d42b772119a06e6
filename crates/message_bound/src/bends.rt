//! What has to be taken off where costs go by the square of the distance, in as many steps as there
//! are labels.
//!
//! What is due at a label of the first site is the highest of parabolas there, which open downwards
//! from the numbers that are added at the labels of the second. A message over such costs nowhere
//! bends up more than these parabolas bend down. So over each label their heights rise to the
//! highest and then fall, and the place of the highest goes up with the label.
ghost use Rattle.std.specs.Prelude.{◌≡◌, ℕ, ◌+◌, ◌*◌, ◌^◌, ◌<◌, ◌≤◌, length, slice_index};
ghost use Rattle.std.specs.Prelude.{IsTrue, IsFalse, min};
ghost use Rattle.label_field.specs.Limits.{label_limit};
ghost use Rattle.message_bound.specs.Costs.{square_apart, IsLevel, Rises, IsHighestOver};

/// Whether no number is more than `step` below the middle of the two beside it.
pub(crate) fn are_level(numbers: &[u32], step: u64) -> bool
    requires { step < 2 ^ 42 }
    ensures { IsTrue result → IsLevel numbers.now step }
{
    for place in 2..numbers.len() {
        let ends = u64::from(numbers[place - 2]) + u64::from(numbers[place]);
        if ends > 2 * u64::from(numbers[place - 1]) + 2 * step {
            return false;
        }
    }
    true
}

/// Whether over a label the next place's parabola is not below that of this one.
fn rises(numbers: &[u32], step: u64, label: usize, place: usize) -> bool
    requires step { step < 2 ^ 42 }
    requires few { length numbers.now ≤ label_limit }
    requires inside { (label < length numbers.now) × (place + 1 < length numbers.now) }
    ensures yes { IsTrue result → Rises numbers.now step label place }
    ensures no { IsFalse result
        → slice_index numbers.now (place + 1) + step * (2 * label)
        ≤ slice_index numbers.now place + step * (2 * place + 1) }
{
    u64::from(numbers[place]) + step * (2 * place as u64 + 1)
        <= u64::from(numbers[place + 1]) + step * (2 * label as u64)
}

/// The place whose parabola is highest over a label, from a place to which they rise.
fn highest_from(numbers: &[u32], step: u64, label: usize, from: usize) -> usize
    requires step { step < 2 ^ 42 }
    requires few { length numbers.now ≤ label_limit }
    requires inside { (label < length numbers.now) × (from < length numbers.now) }
    requires level { IsLevel numbers.now step }
    requires rise { (k : ℕ) → k + 1 ≡ from → Rises numbers.now step label k }
    ensures inside { result < length numbers.now }
    ensures rise { (k : ℕ) → k + 1 ≡ result → Rises numbers.now step label k }
    ensures highest { IsHighestOver numbers.now step label result }
{
    let mut place = from;
    while place + 1 < numbers.len() && rises(numbers, step, label, place) {
        place += 1;
    }
    place
}

/// The greatest of the numbers, or 0.
fn greatest(numbers: &[u32]) -> u32
    ensures { (k : ℕ) → k < length numbers.now → slice_index numbers.now k ≤ result }
{
    let mut greatest = 0u32;
    for place in 0..numbers.len() {
        greatest = greatest.max(numbers[place]);
    }
    greatest
}

/// What is left of a number so far from the top of its parabola.
fn height_at(top: u32, step: u64, apart: usize) -> u64
    requires { (step < 2 ^ 42) × (apart < label_limit) }
    ensures paid { top ≤ result + step * (apart * apart) }
    ensures small { result < 2 ^ 32 }
{
    let apart = apart as u64;
    u64::from(top).saturating_sub(step * (apart * apart))
}

/// What has to be taken off at each label, by costs of this step for the square of the distance and
/// of at most `most`.
pub(crate) fn take_squares(added: &[u32], step: u64, most: u64, taken: &mut [u32])
    requires step { step < 2 ^ 42 }
    requires few { length added.now ≤ label_limit }
    requires level { IsLevel added.now step }
    requires taken { length taken.old ≡ length added.now }
    ensures paid { (a b : ℕ) → a < length added.now → b < length added.now
        → slice_index added.now b
        ≤ slice_index taken.new a + min (step * square_apart a b) most }
    ensures small { (k : ℕ) → k < length added.now → slice_index taken.new k < 2 ^ 32 }
{
    let rest = u64::from(greatest(added)).saturating_sub(most);
    let mut place = 0usize;
    for label in 0..added.len() {
        place = highest_from(added, step, label, place);
        let height = height_at(added[place], step, label.abs_diff(place));
        taken[label] = height.max(rest) as u32;
    }
}
