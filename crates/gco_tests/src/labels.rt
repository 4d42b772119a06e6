//! Whole runs of `gco label`.
use crate::streams::{ROOM, SlowReader, ends};
use std::sync::Wait;
use std::thread::Threads;

mod problems;
mod random;
mod runs;

/// Whether a run over this file ends with this status, and writes and says this.
fn is_labelled(
    rt: &(impl AllocGlobal + Threads + Wait + Sync),
    file: &str,
    status: u8,
    written: &str,
    said: &str,
) -> bool {
    let mut reader = SlowReader::new(file.as_bytes(), ROOM, false);
    let written = written.as_bytes();
    ends(rt, &["gco", "label"], &mut reader, status, written, said)
}
