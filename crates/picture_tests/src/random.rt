//! Small pictures that are drawn at random, restored on one thread and by workers.
ghost use Rattle.std.specs.Prelude.{◌<◌};

use crate::by_workers::{Counter, Kept};
use crate::rows::{expect, hold, take_ok};
use byte_streams::Watched;
use label_energies::Moves;
use moves::{Alone, Sharing};
use rounds::Workers;
use run_options::{Neighbours, RestoreOptions, Shape};
use std::alloc::{AllocError, Global};
use std::process::Abort;
use std::sync::Wait;
use std::sync::atomic::{AtomicU32, Ordering};
use std::thread::Threads;
use vision::{Report, VisionError, run_restore};
use worker_options::{Gate, Options};

/// How many pictures are drawn.
const PICTURES: usize = 100;

/// How many of them are restored at least: swaps with a cost of labels are refused, which are some
/// 9 of 100, and quadratic costs that are cut off may be, a third of the expansions at most.
const LEAST_RESTORED: u32 = 50;

/// Numbers one after another, by a linear rule (Knuth, TAOCP 2, section 3.3.4, line 16 of its
/// table).
#[derive(Drop)]
struct Dice {
    state: u32,
}

impl Dice {
    /// The next number, from 0 to one less than the count.
    fn below(&mut self, count: u32) -> u32
        requires { 0 < count }
        ensures { result < count }
    {
        self.state = self
            .state
            .wrapping_mul(1_664_525)
            .wrapping_add(1_013_904_223);
        self.state / 65_536 % count
    }
}

/// The digit of a number.
fn digit(number: u32) -> u8
    requires { number < 10 }
{
    b'0' + number as u8
}

/// A picture of 1 to 5 columns and rows, and 2 to 4 grey levels.
fn picture(alloc: Global, dice: &mut Dice) -> Result<Vec<u8>, AllocError> {
    let width = 1 + dice.below(5);
    let height = 1 + dice.below(5);
    let maxval = 1 + dice.below(3);
    let mut picture = Vec::from_slice(alloc, b"P5 ")?;
    picture.extend_from_slice(&[digit(width), b' ', digit(height), b' '])?;
    picture.extend_from_slice(&[digit(maxval), b'\n'])?;
    for _ in 0..width * height {
        picture.push(dice.below(maxval + 1) as u8)?;
    }
    Ok(picture)
}

fn shape(dice: &mut Dice) -> Shape {
    match dice.below(3) {
        0 => Shape::Potts,
        1 => Shape::Linear,
        _ => Shape::Quadratic,
    }
}

/// Options of a restoring, which are in their ranges.
fn options(dice: &mut Dice) -> RestoreOptions {
    RestoreOptions {
        smooth: shape(dice),
        trunc: 1 + dice.below(3),
        weight: dice.below(4),
        neighbours: if dice.below(2) == 0 {
            Neighbours::Four
        } else {
            Neighbours::Eight
        },
        moves: if dice.below(4) == 0 {
            Moves::Swap
        } else {
            Moves::Expansion
        },
        cycles: dice.below(3),
        label_cost: if dice.below(2) == 0 {
            None
        } else {
            Some(dice.below(4))
        },
        bound: dice.below(2) == 0,
    }
}

/// Options of workers, which are in their ranges: half of them make no round.
fn options_of_workers(dice: &mut Dice) -> Options {
    Options {
        threads: 1 + dice.below(8),
        blocks: 1 + dice.below(256),
        ring: 1,
        turns: dice.below(40),
        rounds: dice.below(2),
    }
}

/// What a restoring answers, and what it writes.
type Restored = (Result<Report, VisionError>, Vec<u8>);

fn restore_by<H: Sharing>(
    rt: &(impl Abort + AllocGlobal),
    picture: &[u8],
    options: &RestoreOptions,
    how: &H,
) -> Restored
    requires { H.ready how.now }
{
    hold(rt, options.fits());
    let mut writer = Kept::new(rt.alloc());
    let mut sink = Watched::new(&mut writer);
    let report = run_restore(rt.alloc(), picture, options, how, &mut sink);
    let Kept { bytes } = writer;
    (report, bytes)
}

/// The same by workers.
fn restored_by<R: Threads + Wait + Sync + Abort + AllocGlobal>(
    rt: &R,
    picture: &[u8],
    options: &RestoreOptions,
    sharing: Options,
    gate: &(dyn Gate + Sync),
) -> Restored {
    let how = Workers {
        rt,
        options: sharing,
        gate: &gate,
    };
    restore_by(rt, picture, options, &how)
}

/// Whether workers restore a picture as it was by one thread, and ask the gate only where they make
/// a round.
fn is_alike<R: Threads + Wait + Sync + Abort + AllocGlobal>(
    rt: &R,
    dice: &mut Dice,
    picture: &[u8],
    options: &RestoreOptions,
    alone: &Restored,
) -> bool {
    let sharing = options_of_workers(dice);
    let counter = Counter {
        calls: AtomicU32::new(0),
        answer: dice.below(2) == 0,
    };
    let shared = restored_by(rt, picture, options, sharing, &counter);
    alone.0 == shared.0
        && alone.1.as_slice() == shared.1.as_slice()
        && (sharing.rounds > 0 || counter.calls.load(Ordering::SeqCst) == 0)
}

/// Whether the next picture was restored, if workers restore it as one thread does.
fn is_next_restored<R: Threads + Wait + Sync + Abort + AllocGlobal>(
    rt: &R,
    dice: &mut Dice,
) -> Option<bool> {
    let picture = take_ok(rt, picture(rt.alloc(), dice));
    let options = options(dice);
    let alone = restore_by(rt, picture.as_slice(), &options, &Alone);
    if is_alike(rt, dice, picture.as_slice(), &options, &alone) {
        Some(alone.0.is_ok())
    } else {
        None
    }
}

#[test]
fn pictures_drawn_are_alike(rt: HostRuntime) {
    let mut dice = Dice { state: 1 };
    let mut restored = 0u32;
    for place in 0..PICTURES {
        let is_restored = is_next_restored(&rt, &mut dice);
        expect(&rt, place, is_restored.is_some());
        restored = restored.saturating_add(u32::from(is_restored == Some(true)));
    }
    hold(&rt, restored >= LEAST_RESTORED);
}
