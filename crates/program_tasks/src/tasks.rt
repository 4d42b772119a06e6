//! What the words ask for, done.
ghost use Rattle.std.specs.Prelude.{◌≡◌, IfOk, IfErr};
ghost use Rattle.command_line.specs.Task.{FitsTask};
ghost use Rattle.program_tasks.specs.Commands.{IsDueFor, IsFaultFor};
ghost use Rattle.program_tasks.specs.Refusals.{Refuses, TellsRead};
ghost use Rattle.program_texts.specs.Writing.{Writes};

use crate::energy::answer_energy;
use crate::label::answer_label;
use crate::pictures::picture;
use byte_streams::{Sink, Source};
use command_line::Task;
use cut_ways::Sharing;
use program_texts::{Fault, Line, write_text};
use std::alloc::Global;

/// One command over its input. Nothing is written before the whole answer is there.
pub fn run_task<H: Sharing, R: Source, W: Sink>(
    alloc: Global,
    task: Task,
    how: &H,
    source: &mut R,
    sink: &mut W,
) -> Result<Line, Fault>
    requires fits { FitsTask task }
    requires ready { H.ready how.now }
    ensures done { IfOk result (λ said. Writes (IsDueFor task (R.stream source.old))
        (W.stream sink.old) (W.stream sink.new) said.bytes) }
    ensures refused { IfErr result (Refuses (IsDueFor task (R.stream source.old))
        (IsFaultFor (H.refuses how.now) task (R.stream source.old)) (W.stream sink.old)
        (W.stream sink.new)) }
    ensures read { TellsRead (R.stream source.old) (R.stream source.new) result }
    ensures kept { W.loan sink.new ≡ W.loan sink.old }
{
    match task {
        Task::Energy => {
            let answer = answer_energy(alloc, how, source)?;
            write_text(sink, answer.text.as_slice(), answer.said)
        }
        Task::Label { bound } => {
            let answer = answer_label(alloc, bound, how, source)?;
            write_text(sink, answer.text.as_slice(), answer.said)
        }
        Task::Picture(options) => picture(alloc, options, how, source, sink),
    }
}
