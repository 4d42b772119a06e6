//! Work that is done in parts, by threads.
ghost use denote.Param.Send.{IsSync};
ghost use Rattle.std.specs.Prelude.{◌≡◌, ◌<◌, ℕ, All, IfOk, slice_index_or, vec_len};
ghost use Rattle.part_threads.specs.Drawing.{OfDrawnParts, IsAnswerOf};

use crate::drawing::{Answer, DrawnPart, collect_answers, draw_parts};
use cut_ways::Fork;
use std::alloc::{AllocError, Global};
use std::sync::atomic::AtomicUsize;
use std::thread;
use std::thread::Threads;

/// What a thread did of the parts that it drew, or that memory ran out.
type Hand = Result<Vec<DrawnPart>, AllocError>;

/// What the thread that asks draws, and what each of so many others does. It starts all of them
/// itself: where two threads start one each at the same time, the system can give both new ones the
/// same processor, and leave another idle.
#[cycle(hands)]
fn draw_beside<R: Threads + Sync, D: Fn(usize) -> Hand + Sync>(
    rt: &R,
    alloc: Global,
    others: usize,
    draw: &D,
) -> Result<Vec<Hand>, AllocError>
    requires able { (i : ℕ) → D.pre draw.now i }
    ensures { IfOk result (λ hands. All (IsAnswerOf D.Fn draw.now) hands.items) }
{
    if others == 0 {
        let mut hands = Vec::new(alloc);
        hands.push(draw(0))?;
        return Ok(hands);
    }
    let left = others - 1;
    let one = move || -> Hand
        requires { IsSync D.row × ((i : ℕ) → D.pre draw.now i) }
        ensures { IsAnswerOf D.Fn draw.entry.now result }
    { draw(others) };
    let rest = move || -> Result<Vec<Hand>, AllocError>
        requires { IsSync R.row × IsSync D.row × ((i : ℕ) → D.pre draw.now i) }
        ensures { IfOk result (λ hands. All (IsAnswerOf D.Fn draw.entry.now) hands.items) }
    { draw_beside(rt, alloc, left, draw) };
    let (hand, hands) = thread::join(rt, one, rest);
    let mut hands = hands?;
    hands.push(hand)?;
    Ok(hands)
}

/// What each of so many threads did of the parts, which they draw one after another.
fn draw_by_threads<R: Threads + Sync>(
    rt: &R,
    alloc: Global,
    threads: usize,
    count: usize,
    work: &(dyn Fn(usize) -> Answer + Sync),
) -> Result<Vec<Hand>, AllocError>
    requires work { (i : ℕ) → i < count → pre work.now i }
    ensures { IfOk result (λ hands. All (λ hand. IfOk hand (λ parts.
        OfDrawnParts (λ i answer. post work.now i answer) parts.items)) hands.items) }
{
    let first = AtomicUsize::new(0);
    let next = &first;
    draw_beside(
        rt,
        alloc,
        threads.min(count).saturating_sub(1),
        &|_hand: usize| -> Hand
            requires { (i : ℕ) → i < count → pre work.now i }
            ensures { IfOk result (λ parts.
                OfDrawnParts (λ i answer. post work.entry.now i answer) parts.items) }
        { draw_parts(alloc, next, count, work) },
    )
}

/// Does so many parts by at most so many threads. A part that no thread did is done by the one that
/// asked.
fn do_parts_by_threads<R: Threads + Sync>(
    rt: &R,
    alloc: Global,
    threads: usize,
    count: usize,
    work: &(dyn Fn(usize) -> Answer + Sync),
) -> Result<Vec<Answer>, AllocError>
    requires work { (i : ℕ) → i < count → pre work.now i }
    ensures count { IfOk result (λ parts. vec_len parts ≡ count) }
    ensures each { IfOk result (λ parts. (i : ℕ) (d : _) → i < count →
        post work.now i (slice_index_or parts.items i d)) }
{
    let hands = draw_by_threads(rt, alloc, threads, count, work)?;
    collect_answers(alloc, count, hands, work)
}

/// By so many threads, each of which does one part after another: the first that no other has
/// begun. If the system does not start one, the others do all the same.
#[derive(Drop)]
pub struct ByThreads<'a, R> {
    /// What starts threads.
    pub rt: &'a R,
    /// How many there are at most, the one that asks among them.
    pub threads: usize,
}

impl<'a, R: Threads + Sync> Fork for ByThreads<'a, R> {
    ghost can_do = { λ _. IsSync R.row };

    fn do_parts(
        &self,
        alloc: Global,
        count: usize,
        work: &(dyn Fn(usize) -> Result<Vec<u8>, AllocError> + Sync),
    ) -> Result<Vec<Result<Vec<u8>, AllocError>>, AllocError> {
        do_parts_by_threads(self.rt, alloc, self.threads, count, work)
    }
}
