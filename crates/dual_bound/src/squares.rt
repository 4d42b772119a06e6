//! What reaches labels by costs that grow with the square of the distance: the lower envelope of
//! parabolas, one for each label (Felzenszwalb, Huttenlocher, Theory of Computing 2012).
//!
//! All parabolas open alike, so the ones that are lowest somewhere are the corners of the lower
//! hull of the points at which they would meet label 0. As of all that makes messages, nothing is
//! promised but that it is safe.
ghost use Rattle.std.specs.Prelude.{◌≡◌, ◌*◌, ◌^◌, ◌<◌, ◌≤◌, All, length};

/// So many times are numbers widened, before the envelope is made.
const ROUNDS: u32 = 12;

/// Puts in place of each number how high the parabola of its label is at label 0.
fn raise_to_zero(own: &mut [u64], step: u64) {
    for label in 0..own.len() {
        let square = (label as u64).wrapping_mul(label as u64);
        own[label] = own[label].wrapping_add(step.wrapping_mul(square));
    }
}

/// Whether the middle one of three labels in rising order is not below the line of the others.
fn is_hidden(heights: &[u64], first: usize, middle: usize, last: usize) -> bool
    requires ends { (first < length heights.now) × (last < length heights.now) }
    requires middle { middle < length heights.now }
{
    let behind = last.wrapping_sub(middle) as u64;
    let before = middle.wrapping_sub(first) as u64;
    let line = heights[first]
        .wrapping_mul(behind)
        .wrapping_add(heights[last].wrapping_mul(before));
    line <= heights[middle].wrapping_mul(behind.wrapping_add(before))
}

/// The place of the last corner that a later label leaves.
fn last_left(heights: &[u64], corners: &[u32], top: usize, later: usize) -> usize
    requires later { later < length heights.now }
    requires corners { All (λ corner. corner < length heights.now) corners.now }
    requires size { length corners.now ≡ length heights.now }
    requires top { top < length heights.now }
    ensures { result ≤ top }
{
    let mut left = top;
    while left > 0
        && is_hidden(
            heights,
            corners[left - 1] as usize,
            corners[left] as usize,
            later,
        )
    {
        left -= 1;
    }
    left
}

/// Lists the corners of the lower hull of the heights over their labels. The answer is the place of
/// the last.
fn list_corners(heights: &[u64], corners: &mut [u32]) -> usize
    requires some { (0 < length heights.now) × (length heights.now < 2 ^ 32) }
    requires size { length corners.old ≡ length heights.now }
    ensures corners { All (λ corner. corner < length heights.now) corners.new }
    ensures top { result < length heights.now }
{
    corners.fill(0);
    let mut top = 0usize;
    for later in 1..heights.len() {
        top = last_left(heights, corners, top, later) + 1;
        corners[top] = later as u32;
    }
    top
}

/// How high the parabola of a label is at another.
fn height_at(heights: &[u64], step: u64, apex: u32, label: usize) -> u64
    requires { apex < length heights.now }
{
    let label = label as u64;
    let twice = u64::from(apex).wrapping_mul(2);
    heights[apex as usize].wrapping_add(
        step.wrapping_mul(label)
            .wrapping_mul(label.wrapping_sub(twice)),
    )
}

/// The place of the corner whose parabola is lowest at a label, from the place of an earlier
/// label's.
fn lowest_from(
    heights: &[u64],
    step: u64,
    corners: &[u32],
    top: usize,
    from: usize,
    label: usize,
) -> usize
    requires corners { All (λ corner. corner < length heights.now) corners.now }
    requires top { (from ≤ top) × (top < length corners.now) }
    ensures { result ≤ top }
{
    let mut place = from;
    while place < top
        && height_at(heights, step, corners[place + 1], label)
            <= height_at(heights, step, corners[place], label)
    {
        place += 1;
    }
    place
}

/// Copies numbers, and none above the cap.
fn cut_to(numbers: &[u64], cap: u64, out: &mut [u64])
    requires { length out.old ≡ length numbers.now }
{
    for label in 0..numbers.len() {
        out[label] = numbers[label].min(cap);
    }
}

/// Lowers each number to what reaches it from the label before or behind at this cost, and tells
/// whether one is lower now.
fn widen(numbers: &mut [u64], by: u64) -> bool
    requires { 0 < length numbers.old }
{
    let last = numbers.len() - 1;
    let mut before = u64::MAX - by;
    let mut here = numbers[0];
    let mut lowered = false;
    for label in 0..last {
        let behind = numbers[label + 1];
        let reach = before.min(behind).wrapping_add(by);
        lowered |= reach < here;
        numbers[label] = here.min(reach);
        before = here;
        here = behind;
    }
    let reach = before.wrapping_add(by);
    numbers[last] = here.min(reach);
    lowered | (reach < here)
}

/// Does so at costs that are 1, 3, 5, .. times the step, which together are its squares. Tells
/// whether no number can be lowered any more.
fn widen_all(numbers: &mut [u64], step: u64) -> bool
    requires { 0 < length numbers.old }
{
    let mut by = step;
    for _ in 0..ROUNDS {
        if !widen(numbers, by) {
            return true;
        }
        by = by.wrapping_add(step.wrapping_mul(2));
    }
    false
}

/// The least that reaches each label from any, by costs of this step for the square of the distance
/// and of at most `most`. `lowest` is the least of the numbers, which are lost; `corners` is room
/// for one number a label.
pub(crate) fn spread_squares(
    own: &mut [u64],
    lowest: u64,
    step: u64,
    most: u64,
    out: &mut [u64],
    corners: &mut [u32],
)
    requires few { length own.old < 2 ^ 32 }
    requires sizes { (length corners.old ≡ length own.old) × (length out.old ≡ length own.old) }
{
    if own.is_empty() {
        return;
    }
    cut_to(own, lowest.wrapping_add(most), out);
    if widen_all(out, step) {
        return;
    }
    raise_to_zero(own, step);
    let top = list_corners(own, corners);
    let mut place = 0usize;
    for label in 0..own.len() {
        place = lowest_from(own, step, corners, top, place, label);
        out[label] = height_at(own, step, corners[place], label);
    }
}
