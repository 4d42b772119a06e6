//! A picture of as many sites as threads close in by parts.
use crate::by_workers::{TWO, is_kept, wide_stripes};
use crate::rows::{expect, take_ok};
use rounds::Open;
use std::process::Abort;
use std::rt::Files;
use std::sync::Wait;
use std::sync::atomic::{AtomicBool, Ordering};
use std::thread::Threads;
use std::{fs, thread};
use worker_options::Options;

/// Whether so many threads restore the picture to itself. In each of 256 rows each of 64 stripes
/// costs 2, its two borders, and would cost 3 if it were black. There are no rounds: so only the
/// parts of moves start threads.
fn is_kept_by<R: Threads + Wait + Sync + Abort + AllocGlobal>(
    rt: &R,
    picture: &[u8],
    threads: u32,
) -> bool {
    let options = Options {
        threads,
        rounds: 0,
        ..TWO
    };
    is_kept(rt, picture, 32_768, options, &Open)
}

/// How many threads the process has, as the system tells it: 0 where it does not.
fn threads_now<R: Files + AllocGlobal>(rt: &R) -> u32 {
    let Ok(status) = fs::read_to_string(rt, "/proc/self/status") else {
        return 0;
    };
    for line in status.lines() {
        if let Some(number) = line.strip_prefix("Threads:") {
            return number.trim().parse::<u32>().unwrap_or(0);
        }
    }
    0
}

/// How often the number of threads is looked at.
const LOOKS: u32 = 100_000_000;

/// How many threads the process had at most, from now until all is done.
fn most_threads<R: Files + AllocGlobal>(rt: &R, done: &AtomicBool) -> u32 {
    let mut most = 0;
    for _ in 0..LOOKS {
        most = most.max(threads_now(rt));
        if done.load(Ordering::SeqCst) {
            return most;
        }
    }
    most
}

/// Whether so many threads restore the picture to itself, and how many there were meanwhile, beside
/// the one that looks.
fn count_threads<R: Threads + Wait + Sync + Files + Abort + AllocGlobal>(
    rt: &R,
    picture: &[u8],
    threads: u32,
) -> (bool, u32) {
    let done = AtomicBool::new(false);
    let (is_right, most) = thread::join(
        rt,
        || {
            let is_right = is_kept_by(rt, picture, threads);
            done.store(true, Ordering::SeqCst);
            is_right
        },
        || most_threads(rt, &done),
    );
    (is_right, most.saturating_sub(1))
}

/// Whether so many threads restore the picture to itself, more than one where several are to, and
/// no further one.
fn is_kept_by_parts<R: Threads + Wait + Sync + Files + Abort + AllocGlobal>(
    rt: &R,
    picture: &[u8],
    threads: u32,
) -> bool {
    let (is_right, most) = count_threads(rt, picture, threads);
    is_right && (most > 1) == (threads > 1) && most <= threads
}

/// One thread closes in each move alone. Two and three close in its parts side by side.
#[test]
fn parts_keep_the_picture(rt: HostRuntime) {
    let picture = take_ok(&rt, wide_stripes(rt.alloc()));
    for threads in 1..4u32 {
        let is_right = is_kept_by_parts(&rt, picture.as_slice(), threads);
        expect(&rt, threads as usize, is_right);
    }
}
