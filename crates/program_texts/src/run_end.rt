//! What is said at the end of a run, and its exit status.
ghost use Rattle.std.specs.Prelude.{◌≡◌, MatchResult};
ghost use Rattle.program_texts.specs.Refusals.{SaysRefusal, exit_status};
ghost use Rattle.byte_streams.specs.Streams.{Took};

use crate::fault_line::line_of;
use crate::line::Line;
use crate::refusal::Refusal;
use byte_streams::{Sink, put_text};

/// Says what is due at the end of a run, and answers the exit status.
pub fn say_end<E: Sink>(faults: &mut E, end: Result<Line, Refusal>) -> u8
    ensures told { MatchResult end
        (λ said. Took (E.stream faults.old) (E.stream faults.new) said.bytes)
        (SaysRefusal (E.stream faults.old) (E.stream faults.new)) }
    ensures status { result ≡ exit_status end }
    ensures kept { E.loan faults.new ≡ E.loan faults.old }
{
    match end {
        Ok(said) => say(faults, said.as_str(), 0),
        Err(Refusal::Fault(fault)) => say(faults, line_of(fault).as_str(), 1),
        Err(Refusal::Words(text)) => say(faults, text.as_str(), 2),
    }
}

// Says a text, and answers the exit status. A fault of the sink is passed over.
pub(crate) fn say<E: Sink>(faults: &mut E, text: &str, status: u8) -> u8
    ensures told { Took (E.stream faults.old) (E.stream faults.new) text.now }
    ensures status { result ≡ status }
    ensures kept { E.loan faults.new ≡ E.loan faults.old }
{
    let _ = put_text(faults, text.as_bytes());
    status
}
