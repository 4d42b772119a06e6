//! Workers that run side by side, each in a thread of its own.
ghost use Rattle.std.specs.Prelude.{◌≡◌, ◌<◌, ◌≤◌, ℕ, IfErr, IfOk, slice_index_or, vec_capacity};
ghost use Rattle.std.specs.Prelude.{vec_len};
ghost use Rattle.block_workers.specs.Workers.{AllWorked, AreNew};
ghost use Rattle.block_workers.specs.declared.crew.RoundError.TheVariants.{OutOfMemory, Workers};

use crate::{Job, TurnBook, Worker};
use std::alloc::{AllocError, Global};
use std::snapshot::Snapshot;
use std::sync::{Mutex, Wait};
use std::thread;
use std::thread::{Promise, Threads};
use thiserror::Error;
use worker_options::Gate;

/// Why no round came about. A worker is told only where more than one was asked for. When memory or
/// a thread is refused is in no clause, as the standard library has none.
#[derive(Clone, Copy, PartialEq, Eq, Debug, Error)]
pub enum RoundError {
    /// Memory ran out, before the first worker started.
    #[error("out of memory")]
    OutOfMemory,
    /// A worker was refused by the system. Those that had started were joined.
    #[error("a worker could not be started")]
    Workers,
}

impl From<AllocError> for RoundError {
    ghost from_gives = { λ _ e. e ≡ OutOfMemory };

    fn from(_: AllocError) -> RoundError {
        RoundError::OutOfMemory
    }
}

/// The worker that comes back worked on the blocks of this one.
#[derive(Drop)]
struct WorkedOn<J: Job>(Snapshot<Worker<J>>);

impl<J: Job> Promise<Worker<J>> for WorkedOn<J> {
    ghost kept_by = { λ promise worker. AllWorked promise.0.value.seats.items worker.seats.items };
}

/// At most one worker, in the calling thread. Takes no memory.
fn work_here<J: Job, R: Wait, G: Gate>(
    rt: &R,
    workers: Vec<Worker<J>>,
    book: &Mutex<TurnBook<J>>,
    gate: &G,
) -> Vec<Worker<J>>
    requires alone { vec_len workers ≤ 1 }
    requires new { (i : ℕ) (d : _) → i < vec_len workers
        → AreNew (slice_index_or workers.items i d).seats.items }
    ensures len { vec_len result ≡ vec_len workers }
    ensures each { (i : ℕ) (d : _) → i < vec_len workers
        → AllWorked (slice_index_or workers.items i d).seats.items
        (slice_index_or result.items i d).seats.items }
{
    let mut workers = workers;
    if let Some(worker) = workers.pop() {
        workers.push_reserved(worker.after_work(rt, book, gate));
    }
    workers
}

/// Each worker moved with its blocks into a thread of its own, and back. A worker that is alone
/// works in the calling thread. All growths come before the first worker starts.
pub fn all_work<J: Job + Sync, R: Threads + Wait + Sync, G: Gate>(
    rt: &R,
    alloc: Global,
    workers: Vec<Worker<J>>,
    book: &Mutex<TurnBook<J>>,
    gate: &G,
) -> Result<Vec<Worker<J>>, RoundError>
    requires { (i : ℕ) (d : _) → i < vec_len workers
        → AreNew (slice_index_or workers.items i d).seats.items }
    ensures len { IfOk result (λ v. vec_len v ≡ vec_len workers) }
    ensures each { IfOk result (λ v. (i : ℕ) (d : _) → i < vec_len workers
        → AllWorked (slice_index_or workers.items i d).seats.items
        (slice_index_or v.items i d).seats.items) }
    ensures refused { IfErr result (λ e. e ≡ Workers → 1 < vec_len workers) }
{
    if workers.len() < 2 {
        return Ok(work_here(rt, workers, book, gate));
    }
    let mut handles = Vec::with_capacity(alloc, workers.len())?;
    let mut back = Vec::with_capacity(alloc, workers.len())?;
    thread::scope(
        thread::scope_env(),
        rt,
        |scope| -> Result<Vec<Worker<J>>, RoundError>
            requires new { (i : ℕ) (d : _) → i < vec_len workers
                → AreNew (slice_index_or workers.items i d).seats.items }
            requires handles { (vec_len handles ≡ 0) × (vec_capacity handles ≡ vec_len workers) }
            requires back { (vec_len back ≡ 0) × (vec_capacity back ≡ vec_len workers) }
            ensures len { IfOk result (λ v. vec_len v ≡ vec_len workers) }
            ensures each { IfOk result (λ v. (i : ℕ) (d : _) → i < vec_len workers
                → AllWorked (slice_index_or workers.items i d).seats.items
                (slice_index_or v.items i d).seats.items) }
        {
            for worker in workers {
                let promise = WorkedOn(Snapshot::of(&worker));
                let work = move || -> Worker<J>
                    requires { AreNew worker.seats.items }
                    ensures { AllWorked worker.seats.items result.seats.items }
                { worker.after_work(rt, book, gate) };
                match scope.spawn_with(promise, work) {
                    Ok(handle) => handles.push_reserved(handle),
                    Err(_) => return Err(RoundError::Workers),
                }
            }
            for handle in handles {
                back.push_reserved(handle.join(rt));
            }
            Ok(back)
        },
    )
}
