//! Circles of places, linked both ways in two lists.
ghost use Rattle.std.specs.Prelude.{◌≡◌, ◌<◌, ◌^◌, IfOk, length, slice_index};
ghost use Rattle.node_buckets.specs.Circles.{AreCircles, AreAlone, without_link, with_link};
ghost use Rattle.node_buckets.specs.Circles.{after_left};

use std::alloc::{AllocError, Global};

/// So many places, each alone.
pub(crate) fn alone(alloc: Global, places: usize) -> Result<Vec<u32>, AllocError>
    requires { places < 2 ^ 32 }
    ensures size { IfOk result (λ list. length list.items ≡ places) }
    ensures alone { IfOk result (λ list. AreAlone list.items) }
{
    let mut list = Vec::with_capacity(alloc, places)?;
    for place in 0..places {
        list.push_reserved(place as u32);
    }
    Ok(list)
}

/// Each place stands alone.
pub(crate) fn part(places: &mut [u32])
    requires { length places.old < 2 ^ 32 }
    ensures size { length places.new ≡ length places.old }
    ensures alone { AreAlone places.new }
{
    for place in 0..places.len() {
        places[place] = place as u32;
    }
}

/// A place leaves its circle, and stands alone.
pub(crate) fn unlink(next: &mut [u32], prev: &mut [u32], place: usize)
    requires circles { AreCircles next.old prev.old }
    requires place { place < length next.old }
    requires small { length next.old < 2 ^ 32 }
    ensures next { next.new ≡ without_link next.old prev.old place }
    ensures prev { prev.new ≡ without_link prev.old next.old place }
{
    let before = prev[place];
    if before as usize == place {
        return;
    }
    let after = next[place];
    next[before as usize] = after;
    prev[after as usize] = before;
    next[place] = place as u32;
    prev[place] = place as u32;
}

/// A place that is alone stands right after another.
pub(crate) fn link(next: &mut [u32], prev: &mut [u32], before: usize, place: usize)
    requires circles { AreCircles next.old prev.old }
    requires before { before < length next.old }
    requires place { place < length next.old }
    requires small { length next.old < 2 ^ 32 }
    ensures next { next.new ≡ with_link next.old before place (slice_index next.old before) }
    ensures prev { prev.new ≡ with_link prev.old (slice_index next.old before) place before }
{
    let after = next[before];
    next[before] = place as u32;
    next[place] = after;
    prev[after as usize] = place as u32;
    prev[place] = before as u32;
}

/// A place leaves its circle, and stands right after another.
pub(crate) fn relink(next: &mut [u32], prev: &mut [u32], before: usize, place: usize)
    requires circles { AreCircles next.old prev.old }
    requires before { before < length next.old }
    requires place { place < length next.old }
    requires small { length next.old < 2 ^ 32 }
    ensures next { next.new ≡ with_link (without_link next.old prev.old place) before place
        (after_left next.old prev.old before place) }
    ensures prev { prev.new ≡ with_link (without_link prev.old next.old place)
        (after_left next.old prev.old before place) place before }
{
    unlink(next, prev, place);
    link(next, prev, before, place);
}
