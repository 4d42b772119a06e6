//! Where the words of the command line could not be had.
ghost use Rattle.std.specs.Prelude.{◌≡◌, ◌≢◌, codes};
ghost use Rattle.std.specs.declared.io.ErrorKind.TheVariants.{InvalidData};
ghost use Rattle.program_texts.specs.FaultLine.{fault_line};
ghost use Rattle.program_texts.specs.declared.fault.Fault.TheVariants.{OutOfMemory};
ghost use Rattle.program_texts.specs.Refusals.{IsSaid};

use crate::fault::Fault;
use crate::fault_line::line_of;
use crate::run_end::say;
use byte_streams::Sink;
use std::io::ErrorKind;

/// Says why the words could not be had, and answers the exit status: an argument is not text where
/// the kind is `InvalidData`, and else memory was refused.
pub fn refuse_unread<E: Sink>(kind: ErrorKind, faults: &mut E) -> u8
    ensures no_text { kind ≡ InvalidData
        → IsSaid (E.stream faults.old) (E.stream faults.new)
        (codes "error: an argument is not text\n") 2 result }
    ensures no_memory { kind ≢ InvalidData
        → IsSaid (E.stream faults.old) (E.stream faults.new) (fault_line OutOfMemory) 1 result }
    ensures kept { E.loan faults.new ≡ E.loan faults.old }
{
    match kind {
        ErrorKind::InvalidData => say(faults, "error: an argument is not text\n", 2),
        _ => say(faults, line_of(Fault::OutOfMemory).as_str(), 1),
    }
}
