//! A reader and a writer in memory, and a run over them.
ghost use Rattle.std.specs.Prelude.{Some};

use arrayvec::ArrayVec;
use byte_streams::{Watched, WatchedReader};
use std::alloc::{AllocError, Global};
use std::io;
use std::io::{Error, ErrorKind, Read, Write};
use std::sync::Wait;
use std::thread::Threads;

/// The most bytes that a writer holds.
pub const ROOM: usize = 16_384;

/// A writer that takes `room` bytes, at most `step` a call, and then stops: by a fault if it is to,
/// else by taking nothing.
#[derive(Drop)]
pub struct CutWriter {
    pub held: ArrayVec<u8, ROOM>,
    pub room: usize,
    pub step: usize,
    pub faults: bool,
}

impl CutWriter {
    /// A writer that stops by a fault.
    pub fn new(room: usize, step: usize) -> CutWriter {
        CutWriter {
            held: ArrayVec::new(),
            room,
            step,
            faults: true,
        }
    }

    /// A writer of ample room.
    pub fn ample() -> CutWriter {
        CutWriter::new(ROOM, ROOM)
    }
}

impl Write for CutWriter {
    ghost contents = { λ w. Some w.held.items };

    fn write(&mut self, buf: &[u8]) -> io::Result<usize> {
        if self.room == 0 && self.faults {
            return Err(Error::from(ErrorKind::Other));
        }
        let most = buf.len().min(self.room).min(self.step);
        let taken = self.held.write(&buf[..most])?;
        self.room = self.room.saturating_sub(taken);
        Ok(taken)
    }

    fn flush(&mut self) -> io::Result<()> {
        Ok(())
    }
}

/// A reader of these bytes and so many more, whatever they are, at most `step` a call, which at the
/// end fails if it is to.
#[derive(Drop)]
pub struct SlowReader<'a> {
    pub bytes: &'a [u8],
    pub more: usize,
    pub step: usize,
    pub is_broken: bool,
}

impl SlowReader<'_> {
    /// A reader of bytes, at most so many a call.
    pub fn new(bytes: &[u8], step: usize, is_broken: bool) -> SlowReader<'_> {
        SlowReader {
            bytes,
            more: 0,
            step,
            is_broken,
        }
    }
}

impl Read for SlowReader<'_> {
    fn read(&mut self, buf: &mut [u8]) -> io::Result<usize> {
        let most = buf.len().min(self.step);
        if !self.bytes.is_empty() {
            return self.bytes.read(&mut buf[..most]);
        }
        if self.more == 0 && self.is_broken {
            return Err(Error::from(ErrorKind::Other));
        }
        let count = most.min(self.more);
        self.more = self.more.saturating_sub(count);
        Ok(count)
    }
}

/// A run over a reader and writers, which are watched. Answers the exit status.
pub fn run(
    rt: &(impl AllocGlobal + Threads + Wait + Sync),
    words: &[&str],
    reader: &mut SlowReader<'_>,
    writer: &mut CutWriter,
    faults: &mut CutWriter,
) -> u8 {
    let mut source = WatchedReader::new(reader);
    let mut sink = Watched::new(writer);
    let mut fault_sink = Watched::new(faults);
    gco_cli::run(rt, words, &mut source, &mut sink, &mut fault_sink)
}

/// Whether a run with these words ends with this status, and writes and says this.
pub fn ends(
    rt: &(impl AllocGlobal + Threads + Wait + Sync),
    words: &[&str],
    reader: &mut SlowReader<'_>,
    status: u8,
    written: &[u8],
    said: &str,
) -> bool {
    let mut writer = CutWriter::ample();
    let mut faults = CutWriter::ample();
    run(rt, words, reader, &mut writer, &mut faults) == status
        && writer.held.as_slice() == written
        && faults.held.as_slice() == said.as_bytes()
}

/// Words that ask for no workers, or for some: what a run writes and says is the same.
pub const WORKERS: &[&[&str]] = &[
    &[],
    &["--threads", "1"],
    &["--threads", "2"],
    &["--threads", "8"],
];

/// Words, and further ones after them.
pub fn join_words<'a>(
    alloc: Global,
    words: &[&'a str],
    more: &[&'a str],
) -> Result<Vec<&'a str>, AllocError> {
    let mut all = Vec::from_slice(alloc, words)?;
    all.extend_from_slice(more)?;
    Ok(all)
}

/// Whether a run with these words and those for workers ends with this status, and writes and says
/// this, whatever workers are asked for.
pub fn ends_alike(
    rt: &(impl AllocGlobal + Threads + Wait + Sync),
    words: &[&str],
    input: &[u8],
    status: u8,
    written: &[u8],
    said: &str,
) -> bool {
    for more in WORKERS {
        let Ok(words) = join_words(rt.alloc(), words, more) else {
            return false;
        };
        let mut reader = SlowReader::new(input, ROOM, false);
        if !ends(rt, words.as_slice(), &mut reader, status, written, said) {
            return false;
        }
    }
    true
}
