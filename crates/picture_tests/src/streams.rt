//! A writer in memory that stops.
use std::alloc::Global;
use std::io;
use std::io::{Error, ErrorKind, Write};

/// A writer that takes `room` bytes, at most `step` a call, and then fails: by a fault if it is to,
/// else by taking nothing.
#[derive(Drop)]
pub struct CutWriter {
    pub held: Vec<u8>,
    pub room: usize,
    pub step: usize,
    pub faults: bool,
}

impl CutWriter {
    /// A writer that takes `room` bytes, at most `step` a call, and then fails by a fault.
    pub fn new(alloc: Global, room: usize, step: usize) -> CutWriter {
        CutWriter {
            held: Vec::new(alloc),
            room,
            step,
            faults: true,
        }
    }
}

impl Write for CutWriter {
    fn write(&mut self, buf: &[u8]) -> io::Result<usize> {
        if self.room == 0 && self.faults {
            return Err(Error::from(ErrorKind::Other));
        }
        let taken = buf.len().min(self.room).min(self.step);
        self.held.extend_from_slice(&buf[..taken])?;
        self.room = self.room.saturating_sub(taken);
        Ok(taken)
    }

    fn flush(&mut self) -> io::Result<()> {
        Ok(())
    }
}
