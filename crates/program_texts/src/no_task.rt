//! Where the words have no task.
ghost use Rattle.std.specs.Prelude.{◌≡◌, ◌<◌, length, IfOk, IfErr};
ghost use Rattle.command_line.specs.Task.{HasText};
ghost use Rattle.program_texts.specs.Refusals.{IsCutHelp, TellsHelp, IsRefusalOf, ShowsHelp};
ghost use Rattle.program_texts.specs.Writing.{Writes};

use crate::answer::write_text;
use crate::fault::Fault;
use crate::line::Line;
use crate::refusal::Refusal;
use byte_streams::Sink;
use command_line::NoTask;

/// Where the words have no task: writes help that was asked for.
pub fn end_without_task<W: Sink>(no_task: NoTask, sink: &mut W) -> Result<Line, Refusal>
    requires { HasText no_task }
    ensures done { IfOk result (λ said.
        ShowsHelp no_task (W.stream sink.old) (W.stream sink.new) said.bytes) }
    ensures refused { IfErr result (IsRefusalOf no_task (W.stream sink.old) (W.stream sink.new)) }
    ensures kept { W.loan sink.new ≡ W.loan sink.old }
{
    match no_task {
        NoTask::OutOfMemory => Err(Refusal::Fault(Fault::OutOfMemory)),
        NoTask::Help(text) => show_help(sink, text.as_str()),
        NoTask::Refused(text) => Err(Refusal::Words(text)),
        NoTask::BadOption(option) => Err(Refusal::Fault(Fault::BadOption(option))),
    }
}

// Writes help, which is not empty. Nothing is said beside it.
fn show_help<W: Sink>(sink: &mut W, text: &str) -> Result<Line, Refusal>
    requires { 0 < length text.now }
    ensures done { IfOk result (λ said.
        Writes (TellsHelp text.now) (W.stream sink.old) (W.stream sink.new) said.bytes) }
    ensures cut { IfErr result (IsCutHelp text.now (W.stream sink.old) (W.stream sink.new)) }
    ensures kept { W.loan sink.new ≡ W.loan sink.old }
{
    match write_text(sink, text.as_bytes(), Line::new()) {
        Ok(said) => Ok(said),
        Err(fault) => Err(Refusal::Fault(fault)),
    }
}
