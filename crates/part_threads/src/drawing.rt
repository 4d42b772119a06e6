//! Parts of a piece of work that threads draw one after another, and their answers in order.
ghost use Rattle.std.specs.Prelude.{◌≡◌, ◌≢◌, ◌<◌, ℕ, All, IfOk, None, Some, length};
ghost use Rattle.std.specs.Prelude.{slice_index_or, vec_len};
ghost use Rattle.part_threads.specs.Drawing.{OfDrawnParts, OfPlaces};

use std::alloc::{AllocError, Global};
use std::sync::atomic::{AtomicUsize, Ordering};

/// What doing a part answers.
pub(crate) type Answer = Result<Vec<u8>, AllocError>;

/// A part that a thread drew, and what doing it answered.
#[derive(Drop)]
pub(crate) struct DrawnPart {
    pub(crate) part: usize,
    pub(crate) answer: Answer,
}

/// Draws parts, does each, and ends once all are drawn. `next` is the first that is not drawn.
pub(crate) fn draw_parts(
    alloc: Global,
    next: &AtomicUsize,
    count: usize,
    work: &(dyn Fn(usize) -> Answer + Sync),
) -> Result<Vec<DrawnPart>, AllocError>
    requires work { (i : ℕ) → i < count → pre work.now i }
    ensures { IfOk result (λ parts. OfDrawnParts (λ i answer. post work.now i answer) parts.items) }
{
    let mut parts = Vec::new(alloc);
    for _ in 0..count {
        let part = next.fetch_add(1, Ordering::SeqCst);
        if part >= count {
            return Ok(parts);
        }
        let answer = work(part);
        parts.push(DrawnPart { part, answer })?;
    }
    Ok(parts)
}

/// So many places without an answer.
fn no_answers(alloc: Global, count: usize) -> Result<Vec<Option<Answer>>, AllocError>
    ensures count { IfOk result (λ places. vec_len places ≡ count) }
    ensures none { IfOk result (λ places. (i : ℕ) (d : _) → i < count →
        slice_index_or places.items i d ≡ None) }
{
    let mut places = Vec::with_capacity(alloc, count)?;
    for _ in 0..count {
        places.push(None)?;
    }
    Ok(places)
}

/// Puts the answer of a part at its place.
fn put_answer(places: &mut Vec<Option<Answer>>, drawn: DrawnPart)
    ensures count { length places.new.items ≡ length places.old.items }
    ensures there { (i : ℕ) (d : _) → i < length places.old.items → i ≡ drawn.part →
        slice_index_or places.new.items i d ≡ Some drawn.answer }
    ensures others { (i : ℕ) (d : _) → i < length places.old.items → i ≢ drawn.part →
        slice_index_or places.new.items i d ≡ slice_index_or places.old.items i d }
{
    if drawn.part < places.len() {
        places[drawn.part] = Some(drawn.answer);
    }
}

/// The answers in the order of their parts. A part without an answer is done here.
fn answers_in_order(
    alloc: Global,
    mut places: Vec<Option<Answer>>,
    work: &(dyn Fn(usize) -> Answer + Sync),
) -> Result<Vec<Answer>, AllocError>
    requires work { (i : ℕ) → i < vec_len places → pre work.now i }
    requires right { OfPlaces (λ i answer. post work.now i answer) places.items }
    ensures count { IfOk result (λ answers. vec_len answers ≡ vec_len places) }
    ensures each { IfOk result (λ answers. (i : ℕ) (d : _) → i < vec_len places →
        post work.now i (slice_index_or answers.items i d)) }
{
    let mut answers = Vec::with_capacity(alloc, places.len())?;
    for part in 0..places.len() {
        match places[part].take() {
            Some(answer) => answers.push(answer)?,
            None => answers.push(work(part))?,
        }
    }
    Ok(answers)
}

/// The answers of so many parts in their order, from what each thread did. It refuses where one was
/// refused memory.
pub(crate) fn collect_answers(
    alloc: Global,
    count: usize,
    hands: Vec<Result<Vec<DrawnPart>, AllocError>>,
    work: &(dyn Fn(usize) -> Answer + Sync),
) -> Result<Vec<Answer>, AllocError>
    requires work { (i : ℕ) → i < count → pre work.now i }
    requires right { All (λ hand. IfOk hand (λ parts.
        OfDrawnParts (λ i answer. post work.now i answer) parts.items)) hands.items }
    ensures count { IfOk result (λ answers. vec_len answers ≡ count) }
    ensures each { IfOk result (λ answers. (i : ℕ) (d : _) → i < count →
        post work.now i (slice_index_or answers.items i d)) }
{
    let mut places = no_answers(alloc, count)?;
    for hand in hands {
        for drawn in hand? {
            put_answer(&mut places, drawn);
        }
    }
    answers_in_order(alloc, places, work)
}
