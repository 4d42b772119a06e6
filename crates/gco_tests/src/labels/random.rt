//! Small random problems against answers worked out over all labellings.
use crate::labels::is_labelled;
use crate::labels::problems::PROBLEMS;
use crate::rows::{expect, hold, take_ok};
use std::process::Abort;
use std::sync::Wait;
use std::thread::Threads;

/// Whether a run over the file of a problem says what its line tells.
fn is_answered(rt: &(impl AllocGlobal + Abort + Threads + Wait + Sync), problem: &str) -> bool {
    let lines = take_ok(rt, problem.replace(rt.alloc(), ';', "\n"));
    let Some((file, said)) = lines.split_once('|') else {
        return false;
    };
    if said.starts_with("refused") {
        is_labelled(rt, file, 1, "", said)
    } else {
        is_labelled(rt, file, 0, said, "")
    }
}

#[test]
fn random_problems(rt: HostRuntime) {
    let mut count = 0usize;
    for problem in PROBLEMS.lines() {
        expect(&rt, count, is_answered(&rt, problem));
        count = count.saturating_add(1);
    }
    hold(&rt, count == 300);
}
