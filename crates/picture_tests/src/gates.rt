//! Gates that let blocks do their first turns alone.
use crate::by_workers::{SHORT, is_kept, stripes};
use crate::rows::{expect, hold, take_ok};
use std::alloc::{AllocError, Global};
use std::process::Abort;
use std::sync::Wait;
use std::sync::atomic::{AtomicBool, AtomicU32, Ordering};
use std::thread::Threads;
use worker_options::Gate;

/// Says no to each block from a turn on.
#[derive(Drop)]
struct Until {
    turn: u32,
    noes: AtomicU32,
    /// Of each block, whether its last answer was a no at a turn from 1 on.
    ended: Vec<AtomicBool>,
    /// A block called for a turn other than its first after such a no.
    went_on: AtomicBool,
}

impl Until {
    fn new(alloc: Global, turn: u32, blocks: u32) -> Result<Until, AllocError> {
        let mut ended = Vec::new(alloc);
        for _ in 0..blocks {
            ended.push(AtomicBool::new(false))?;
        }
        Ok(Until {
            turn,
            noes: AtomicU32::new(0),
            ended,
            went_on: AtomicBool::new(false),
        })
    }

    /// Notes an answer, and whether the block should have begun anew.
    fn note(&self, block: u32, turn: u32, passes: bool) {
        let is_over = turn >= 1 && !passes;
        let was_over = match self.ended.get(block as usize) {
            Some(ended) => ended.swap(is_over, Ordering::SeqCst),
            None => true,
        };
        if was_over && turn >= 1 {
            self.went_on.store(true, Ordering::SeqCst);
        }
        if is_over {
            self.noes.fetch_add(1, Ordering::SeqCst);
        }
    }
}

impl Gate for Until {
    fn pass(&self, block: u32, turn: u32) -> bool {
        let passes = turn < self.turn;
        self.note(block, turn, passes);
        passes
    }
}

/// How many noes a gate gives that says no from a turn on, where the picture is restored to itself,
/// and no block goes on after a no but from its first turn.
fn noes_from<R: Threads + Wait + Sync + Abort + AllocGlobal>(
    rt: &R,
    picture: &[u8],
    turn: u32,
) -> Option<u32> {
    let gate = take_ok(rt, Until::new(rt.alloc(), turn, SHORT.blocks));
    if is_kept(rt, picture, 2_048, SHORT, &gate) && !gate.went_on.load(Ordering::SeqCst) {
        Some(gate.noes.load(Ordering::SeqCst))
    } else {
        None
    }
}

#[test]
fn gates_that_close(rt: HostRuntime) {
    let picture = take_ok(&rt, stripes(rt.alloc()));
    let mut all = 0u32;
    for turn in 0..21u32 {
        let noes = noes_from(&rt, picture.as_slice(), turn);
        expect(&rt, turn as usize, noes.is_some());
        all = all.saturating_add(noes.unwrap_or(0));
    }
    hold(&rt, all > 0);
}
