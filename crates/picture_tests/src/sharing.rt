//! Workers share a net as their options tell: in as many blocks, threads, turns and rounds, and
//! with as much room.
use crate::by_workers::TWO;
use crate::rows::{expect, hold, take_ok};
use flow_network::{Arc, Net};
use rounds::{Lent, side_parallel};
use std::alloc::{AllocError, Global};
use std::hint::spin_loop;
use std::process::Abort;
use std::sync::Wait;
use std::sync::atomic::{AtomicU32, Ordering};
use std::thread::Threads;
use worker_options::{Gate, Options};

/// How often a block that waits looks whether another has come.
const TRIES: u32 = 10_000_000;

/// Counts the calls for turn 0, and those for later turns. Where blocks are to meet it holds each
/// call for turn 0 until there were two, and counts those that met so.
#[derive(Drop)]
struct Counts {
    meets: bool,
    first: AtomicU32,
    later: AtomicU32,
    met: AtomicU32,
}

impl Counts {
    /// Waits until two calls for turn 0 came, or the tries are over.
    fn meet(&self) {
        for _ in 0..TRIES {
            if self.first.load(Ordering::SeqCst) >= 2 {
                self.met.fetch_add(1, Ordering::SeqCst);
                return;
            }
            spin_loop();
        }
    }
}

impl Gate for Counts {
    fn pass(&self, _block: u32, turn: u32) -> bool {
        if turn > 0 {
            self.later.fetch_add(1, Ordering::SeqCst);
            return true;
        }
        self.first.fetch_add(1, Ordering::SeqCst);
        if self.meets {
            self.meet();
        }
        true
    }
}

/// From node 5 to each of the nodes 0 to 4.
fn fan_arcs(alloc: Global) -> Result<Vec<Arc>, AllocError> {
    let mut arcs = Vec::new(alloc);
    for to in 0..5 {
        arcs.push(Arc {
            from: 5,
            to,
            capacity: 1,
        })?;
    }
    Ok(arcs)
}

/// Ten nodes, of which node 5 gets 5 and can pass 1 to each of the nodes 0 to 4, each of which can
/// give the sink 1.
fn fan(rt: &(impl Abort + AllocGlobal)) -> Net {
    let alloc = rt.alloc();
    let sources = take_ok(rt, Vec::from_slice(alloc, &[0, 0, 0, 0, 0, 5, 0, 0, 0, 0]));
    let sinks = take_ok(rt, Vec::from_slice(alloc, &[1, 1, 1, 1, 1, 0, 0, 0, 0, 0]));
    let arcs = take_ok(rt, fan_arcs(alloc));
    hold(
        rt,
        Net::fits(sources.as_slice(), sinks.as_slice(), arcs.as_slice()),
    );
    Net::new(sources, sinks, arcs)
}

/// What workers that cut the fan ask.
fn counts_of<R: Threads + Wait + Abort + AllocGlobal + Sync>(
    rt: &R,
    options: &Options,
    meets: bool,
) -> Counts {
    let counts = Counts {
        meets,
        first: AtomicU32::new(0),
        later: AtomicU32::new(0),
        met: AtomicU32::new(0),
    };
    let gate: &(dyn Gate + Sync) = &counts;
    let lent = Lent { gate };
    let _side = take_ok(rt, side_parallel(rt, rt.alloc(), fan(rt), options, &lent));
    counts
}

/// One thread over two blocks of the fan, of which each has its turn 0 alone in a round, first that
/// of block 0.
const ONE: Options = Options {
    threads: 1,
    blocks: 2,
    turns: 0,
    ..TWO
};

/// Options, how often the gate is called for turn 0, and how often for later turns. A round has a
/// turn 0 of each block. In the first the letters are put; in the second they are given to the
/// sink. A ring of one place takes a letter a round, and one block does all in its turn 0. With
/// turns to draw block 0 has one for the letters, block 1 one for their answers, and each a further
/// one, which does nothing.
type Row = (Options, u32, u32);

const ROWS: &[Row] = &[
    (ONE, 4, 0),
    (Options { ring: 1, ..ONE }, 12, 0),
    (Options { rounds: 1, ..ONE }, 2, 0),
    (Options { rounds: 0, ..ONE }, 0, 0),
    (Options { blocks: 1, ..ONE }, 1, 0),
    (Options { turns: 64, ..ONE }, 2, 4),
];

/// Whether the gate is called as a row tells.
fn is_called<R: Threads + Wait + Abort + AllocGlobal + Sync>(rt: &R, row: &Row) -> bool {
    let counts = counts_of(rt, &row.0, false);
    counts.first.load(Ordering::SeqCst) == row.1 && counts.later.load(Ordering::SeqCst) == row.2
}

/// Two threads over two blocks.
const SIDE_BY_SIDE: Options = Options { threads: 2, ..ONE };

/// Whether each call of two threads for turn 0 meets another.
fn do_meet<R: Threads + Wait + Abort + AllocGlobal + Sync>(rt: &R) -> bool {
    let counts = counts_of(rt, &SIDE_BY_SIDE, true);
    let first = counts.first.load(Ordering::SeqCst);
    first >= 2 && counts.met.load(Ordering::SeqCst) == first
}

#[test]
fn options_are_kept(rt: HostRuntime) {
    for (place, row) in ROWS.iter().enumerate() {
        expect(&rt, place, is_called(&rt, row));
    }
    hold(&rt, do_meet(&rt));
}
