//! Reading a whole input, up to a limit.
ghost use Rattle.std.specs.Prelude.{◌≡◌, ◌≤◌, Bool, true, IfSome, IfOk, OnOk, length};
ghost use Rattle.std.specs.Io.{ReadsAtMost};
ghost use Rattle.byte_streams.specs.Input.{Gives, IsReadOr, NotesEnd, TellsFault, input_limit};
ghost use Rattle.byte_streams.specs.Streams.{Stream};

use std::alloc::Global;
use std::io;
use std::io::Read;
use thiserror::Error;

/// The most bytes that an input may have: 256 MiB.
pub const INPUT_LIMIT: usize = 268_435_456;

// The bytes that one call of `take` asks for.
const CHUNK: usize = 4096;

/// Why an input was not read. What was read before is dropped.
#[derive(Clone, Copy, Debug, PartialEq, Eq, Drop, Error)]
pub enum ReadError {
    /// Memory was refused.
    #[error("out of memory")]
    OutOfMemory,
    /// The source answered a fault.
    #[error("the source failed")]
    ReadFailed,
    /// The input has more bytes than the limit.
    #[error("the input is too long")]
    InputTooLong,
}

/// Bytes to read, which counts the calls that failed.
pub trait Source {
    // The bytes that it will give from here on, where they are known, and how many calls answered a
    // fault.
    ghost stream: { Self → Stream };

    // A call gave no byte to a buffer with room: the end. True of a source that does not remember
    // it.
    ghost has_ended: { Self → Bool } = { λ _. true };

    /// Fills the front of the buffer and answers how many bytes it gave.
    fn take(&mut self, buffer: &mut [u8]) -> io::Result<usize>
        ensures bound { ReadsAtMost result buffer.new }
        ensures gives { Gives (stream self.old) (stream self.new) result buffer.new }
        ensures ends { NotesEnd (has_ended self.new) result buffer.new };
}

/// A reader of std as a source.
#[derive(Drop)]
pub struct WatchedReader<'a, R> {
    /// Where the bytes come from.
    pub reader: &'a mut R,
    failures: u64,
}

impl<'a, R: Read> WatchedReader<'a, R> {
    /// A reader to watch. None of its calls has failed yet.
    pub fn new(reader: &'a mut R) -> WatchedReader<'a, R>
        ensures { (⟦<WatchedReader<'a, R> as Source>⟧.stream result).failures ≡ 0 }
    {
        WatchedReader {
            reader,
            failures: 0,
        }
    }

    /// How many calls of the reader have answered a fault, counted in 64 bits. Only such a call
    /// raises it.
    pub fn failures(&self) -> u64
        ensures { result ≡ (⟦<WatchedReader<'a, R> as Source>⟧.stream self.now).failures }
    {
        self.failures
    }
}

impl<R: Read> Source for WatchedReader<'_, R> {
    ghost stream = { λ s. record { bytes = R.remaining s.reader.now; failures = s.failures } };

    fn take(&mut self, buffer: &mut [u8]) -> io::Result<usize> {
        let result = self.reader.read(buffer);
        if result.is_err() {
            self.failures = self.failures.wrapping_add(1);
        }
        result
    }
}

/// Reads to the end, to the first fault, or to the first byte beyond the limit, by at most
/// `INPUT_LIMIT` + 1 calls of `take`. A fault is told exactly where one of these calls answered it,
/// whatever failed before; a call that answers `Interrupted` is a fault like any other and is not
/// made again.
pub fn read_input<S: Source>(alloc: Global, source: &mut S) -> Result<Vec<u8>, ReadError>
    ensures input { IfSome (S.stream source.old).bytes (λ input. IsReadOr input result) }
    ensures limit { IfOk result (λ input. length input.items ≤ input_limit) }
    ensures ended { OnOk result (S.has_ended source.new ≡ true) }
    ensures fault { TellsFault (S.stream source.old) (S.stream source.new) result }
{
    let mut input = Vec::new(alloc);
    let mut chunk = [0u8; CHUNK];
    for _ in 0..=INPUT_LIMIT {
        let count = match source.take(&mut chunk) {
            Ok(0) => return Ok(input),
            Ok(count) => count,
            Err(_) => return Err(ReadError::ReadFailed),
        };
        if count > INPUT_LIMIT - input.len() {
            return Err(ReadError::InputTooLong);
        }
        if input.extend_from_slice(&chunk[..count]).is_err() {
            return Err(ReadError::OutOfMemory);
        }
    }
    unreachable!()
}
