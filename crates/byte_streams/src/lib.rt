//! Bytes in and out: a whole input with a limit, and a whole text to a writer with exact counts.
//! Readers and writers are watched, so that contracts can say that one really failed.
#![tactic(auto)]

mod input;
mod sink;

pub use input::{INPUT_LIMIT, ReadError, Source, WatchedReader, read_input};
pub use sink::{Sink, Watched, WriteFailed, put_text};
