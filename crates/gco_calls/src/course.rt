//! Where a run stands, as a call is lent it.
ghost use Rattle.std.specs.Prelude.{◌≡◌, ◌<◌, ℕ, length, slice_index, IfOk};
ghost use Rattle.gco_calls.specs.Stretches.{mark_of, ZerosBegin};

use crate::outcome::digit;
use moves::{Bookmark, Mark};
use std::alloc::{AllocError, Global};

/// Where a run stands between two of its moves: all is 0 before the first.
#[repr(C)]
#[derive(Clone, Copy)]
pub struct GcoCourse {
    /// How many whole cycles were done.
    pub cycles: u32,
    /// The place of the next move in its cycle, from 0.
    pub place: u32,
    /// The place of the move that changed a label last; the number of the moves of a cycle where
    /// none did.
    pub last: u32,
    /// 1 where a move of this cycle changed a label, else 0.
    pub changed: u32,
    /// The number of the last expansion that was noted.
    pub noted: u32,
}

/// A run whose course and numbers are all 0 was left at its start: so begins the first stretch.
pub fn zeros_begin()
    ensures { ZerosBegin }
{}

/// What was lent of a run, as a run takes it up.
pub(crate) fn bookmark_of(
    alloc: Global,
    course: GcoCourse,
    stamps: &[u32],
    made: &[u32],
) -> Result<Bookmark, AllocError>
    ensures { IfOk result (λ bookmark. (bookmark.mark ≡ mark_of course)
        × (bookmark.stamps.items ≡ stamps.now) × (bookmark.made.items ≡ made.now)) }
{
    Ok(Bookmark {
        mark: Mark {
            cycles: course.cycles,
            place: course.place,
            last: course.last,
            changed: course.changed != 0,
            noted: course.noted,
        },
        stamps: copy_of(alloc, stamps)?,
        made: copy_of(alloc, made)?,
    })
}

fn copy_of(alloc: Global, numbers: &[u32]) -> Result<Vec<u32>, AllocError>
    ensures { IfOk result (λ copy. copy.items ≡ numbers.now) }
{
    let mut copy = Vec::new(alloc);
    copy.extend_from_slice(numbers)?;
    Ok(copy)
}

/// Where a run stands, as it is handed back.
pub(crate) fn course_of(mark: Mark) -> GcoCourse
    ensures marked { mark_of result ≡ mark }
    ensures cycles { result.cycles ≡ mark.cycles }
{
    GcoCourse {
        cycles: mark.cycles,
        place: mark.place,
        last: mark.last,
        changed: digit(mark.changed),
        noted: mark.noted,
    }
}

/// Hands numbers back: 0 where there is none.
pub(crate) fn put_back(numbers: &[u32], to: &mut [u32])
    ensures size { length to.new ≡ length to.old }
    ensures each { (i : ℕ) → i < length to.old →
        slice_index to.new i ≡ slice_index numbers.now i }
{
    for place in 0..to.len() {
        to[place] = if place < numbers.len() {
            numbers[place]
        } else {
            0
        };
    }
}
