//! A picture restored by workers.
use crate::rows::{expect, hold, take_ok};
use byte_streams::Watched;
use label_energies::Moves;
use rounds::Workers;
use run_options::{Neighbours, RestoreOptions, Shape};
use std::alloc::{AllocError, Global};
use std::io;
use std::io::Write;
use std::process::Abort;
use std::sync::Wait;
use std::sync::atomic::{AtomicU32, Ordering};
use std::thread::Threads;
use vision::{Report, run_restore};
use worker_options::{Gate, Options};

/// Two threads, and the other options as a command line has them that tells none.
pub const TWO: Options = Options {
    threads: 2,
    blocks: 16,
    ring: 64,
    turns: 4_096,
    rounds: 64,
};

/// The same with few turns and rounds, so that a test ends soon on a busy machine.
pub const SHORT: Options = Options {
    turns: 256,
    rounds: 4,
    ..TWO
};

pub const RESTORE: RestoreOptions = RestoreOptions {
    smooth: Shape::Potts,
    trunc: 1,
    weight: 1,
    neighbours: Neighbours::Four,
    moves: Moves::Expansion,
    cycles: 100,
    label_cost: None,
    bound: false,
};

/// Counts how often it is asked. Its answer is always the same.
#[derive(Drop)]
pub struct Counter {
    pub calls: AtomicU32,
    pub answer: bool,
}

impl Gate for Counter {
    fn pass(&self, _block: u32, _turn: u32) -> bool {
        self.calls.fetch_add(1, Ordering::SeqCst);
        self.answer
    }
}

/// A writer that keeps what it takes.
#[derive(Drop)]
pub struct Kept {
    pub bytes: Vec<u8>,
}

impl Kept {
    /// A writer that took nothing yet.
    pub fn new(alloc: Global) -> Kept {
        Kept {
            bytes: Vec::new(alloc),
        }
    }
}

impl Write for Kept {
    fn write(&mut self, buf: &[u8]) -> io::Result<usize> {
        self.bytes.extend_from_slice(buf)?;
        Ok(buf.len())
    }

    fn flush(&mut self) -> io::Result<()> {
        Ok(())
    }
}

/// A picture of this front and so many times four samples, of which one is 3 and the others 0.
fn picture_of(alloc: Global, front: &[u8], stripes: usize) -> Result<Vec<u8>, AllocError> {
    let mut picture = Vec::from_slice(alloc, front)?;
    for _ in 0..stripes {
        picture.extend_from_slice(&[0, 3, 0, 0])?;
    }
    Ok(picture)
}

/// A picture of 64 by 64 samples, 3 in each fourth column and else 0.
pub fn stripes(alloc: Global) -> Result<Vec<u8>, AllocError> {
    picture_of(alloc, b"P5\n64 64\n3\n", 1_024)
}

/// The same of 64 by 128 samples.
fn tall_stripes(alloc: Global) -> Result<Vec<u8>, AllocError> {
    picture_of(alloc, b"P5\n64 128\n3\n", 2_048)
}

/// And of 256 by 256.
pub fn wide_stripes(alloc: Global) -> Result<Vec<u8>, AllocError> {
    picture_of(alloc, b"P5\n256 256\n3\n", 16_384)
}

/// What is told of a picture whose whole energy is that of its pairs.
fn report_of(energy: i64) -> Report {
    Report {
        energy,
        data_part: 0,
        smooth_part: energy,
        label_part: 0,
        bound: None,
    }
}

/// Whether workers restore the picture to itself, and tell this energy, all of it of pairs.
pub fn is_kept<R: Threads + Wait + Sync + Abort + AllocGlobal>(
    rt: &R,
    picture: &[u8],
    energy: i64,
    options: Options,
    gate: &(dyn Gate + Sync),
) -> bool {
    let how = Workers {
        rt,
        options,
        gate: &gate,
    };
    hold(rt, RESTORE.fits());
    let mut writer = Kept::new(rt.alloc());
    let mut sink = Watched::new(&mut writer);
    let report = run_restore(rt.alloc(), picture, &RESTORE, &how, &mut sink);
    report == Ok(report_of(energy)) && writer.bytes.as_slice() == picture
}

/// How often a gate that always gives this answer is asked, where a picture is restored to itself
/// and has this energy.
fn calls_for<R: Threads + Wait + Sync + Abort + AllocGlobal>(
    rt: &R,
    picture: &[u8],
    energy: i64,
    options: Options,
    answer: bool,
) -> Option<u32> {
    let counter = Counter {
        calls: AtomicU32::new(0),
        answer,
    };
    if is_kept(rt, picture, energy, options, &counter) {
        Some(counter.calls.load(Ordering::SeqCst))
    } else {
        None
    }
}

/// The same of the picture of 64 by 64 samples. In each row each of 16 stripes costs 2.
fn gate_calls<R: Threads + Wait + Sync + Abort + AllocGlobal>(
    rt: &R,
    options: Options,
    answer: bool,
) -> Option<u32> {
    let picture = take_ok(rt, stripes(rt.alloc()));
    calls_for(rt, picture.as_slice(), 2_048, options, answer)
}

#[test]
fn workers_asked(rt: HostRuntime) {
    let calls = gate_calls(&rt, TWO, true);
    hold(&rt, calls.unwrap_or(0) >= 16);
}

/// Options, what the gate answers, and the most calls.
type Row = (Options, bool, u32);

/// Without rounds the gate is not asked. In 32 blocks and more a picture of 64 by 64 samples has
/// too few nodes a block to be shared.
const ROWS: &[Row] = &[
    (SHORT, false, u32::MAX),
    (
        Options {
            threads: 8,
            ..SHORT
        },
        true,
        u32::MAX,
    ),
    (Options { ring: 1, ..SHORT }, true, u32::MAX),
    (Options { rounds: 0, ..SHORT }, true, 0),
    (
        Options {
            blocks: 256,
            ..SHORT
        },
        true,
        0,
    ),
    (MANY, true, 0),
];

/// So many blocks that a picture of 64 by 128 samples has just enough nodes for them.
const MANY: Options = Options {
    blocks: 32,
    ..SHORT
};

/// Whether the picture is restored to itself, with at most so many calls of the gate.
fn is_alike<R: Threads + Wait + Sync + Abort + AllocGlobal>(rt: &R, row: &Row) -> bool {
    match gate_calls(rt, row.0, row.1) {
        Some(calls) => calls <= row.2,
        None => false,
    }
}

/// The picture is the same whatever the options are and whatever the gate answers.
#[test]
fn pictures_are_alike(rt: HostRuntime) {
    for (place, row) in ROWS.iter().enumerate() {
        expect(&rt, place, is_alike(&rt, row));
    }
}

/// Each block of a picture of 64 by 128 samples has its first turn.
#[test]
fn many_blocks_are_alike(rt: HostRuntime) {
    let picture = take_ok(&rt, tall_stripes(rt.alloc()));
    let calls = calls_for(&rt, picture.as_slice(), 4_096, MANY, true);
    hold(&rt, calls.unwrap_or(0) >= 32);
}
