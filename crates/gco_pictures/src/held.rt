//! A place for bytes in memory.
ghost use Rattle.std.specs.Prelude.{◌≡◌, [], Some};

use byte_streams::Sink;
use std::alloc::Global;
use std::io;
use std::io::{Error, ErrorKind};

/// The bytes that were put. It fails for want of memory alone.
#[derive(Drop)]
pub(crate) struct Held {
    pub(crate) bytes: Vec<u8>,
    /// How many calls have failed, counted in 64 bits.
    failures: u64,
}

impl Held {
    /// Nothing yet.
    pub(crate) fn new(alloc: Global) -> Held
        ensures { result.bytes.items ≡ [] }
    {
        Held {
            bytes: Vec::new(alloc),
            failures: 0,
        }
    }
}

impl Sink for Held {
    ghost stream = { λ s. record { bytes = Some s.bytes.items; failures = s.failures } };

    fn put(&mut self, piece: &[u8]) -> io::Result<usize> {
        match self.bytes.extend_from_slice(piece) {
            Ok(()) => Ok(piece.len()),
            Err(_) => {
                self.failures = self.failures.wrapping_add(1);
                Err(Error::from(ErrorKind::OutOfMemory))
            }
        }
    }
}
