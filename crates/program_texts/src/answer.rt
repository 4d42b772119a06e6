//! What a command answers, and how it is written.
ghost use Rattle.std.specs.Prelude.{◌≡◌, IfOk, IfErr};
ghost use Rattle.program_texts.specs.Writing.{IsCutIn};
ghost use Rattle.byte_streams.specs.Streams.{Takes};

use crate::fault::Fault;
use crate::line::Line;
use byte_streams::{Sink, put_text};

/// What a command answers. It is made whole before any of it is written.
#[derive(Drop)]
pub struct Answer {
    /// What standard output gets.
    pub text: Vec<u8>,
    /// What is said beside it, on standard error.
    pub said: Line,
}

/// Writes a text, and hands on what is to be said beside it.
pub fn write_text<W: Sink>(sink: &mut W, text: &[u8], said: Line) -> Result<Line, Fault>
    ensures done { IfOk result (λ line. (line ≡ said) ×
        Takes (W.stream sink.old) (W.stream sink.new) text.now) }
    ensures cut { IfErr result (IsCutIn text.now (W.stream sink.old) (W.stream sink.new)) }
    ensures kept { W.loan sink.new ≡ W.loan sink.old }
{
    match put_text(sink, text) {
        Ok(()) => Ok(said),
        Err(failed) => Err(Fault::Write(failed)),
    }
}
