//! Whole runs of `gco energy`.
use crate::streams::ends_alike;
use std::sync::Wait;
use std::thread::Threads;

mod answers;
mod picture;
mod refusals;

/// Whether a run over this file ends with this status, and writes and says this, whatever workers
/// are asked for.
fn is_minimised(
    rt: &(impl AllocGlobal + Threads + Wait + Sync),
    file: &[u8],
    status: u8,
    written: &str,
    said: &str,
) -> bool {
    let written = written.as_bytes();
    ends_alike(rt, &["gco", "energy"], file, status, written, said)
}
