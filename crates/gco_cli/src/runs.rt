//! One whole run.
ghost use Rattle.std.specs.Prelude.{◌≡◌, IfOk, IfErr, MatchResult, map};
ghost use Rattle.std.specs.IoError.{error_kind};
ghost use Rattle.command_line.specs.Task.{FitsRequest, FitsTask};
ghost use Rattle.rounds.specs.SolveErrors.{MayFailToSolve};
ghost use Rattle.program_tasks.specs.Commands.{IsDueFor, IsFaultFor};
ghost use Rattle.gco_cli.specs.Asked.{StandsForAsked};
ghost use Rattle.gco_cli.specs.Refusals.{IsRefusalFor};
ghost use Rattle.gco_cli.specs.Run.{IsDue, IsRun, IsUnread, streams};
ghost use Rattle.program_tasks.specs.Refusals.{Refuses, TellsRead};
ghost use Rattle.program_texts.specs.Writing.{Writes};

use byte_streams::{Sink, Source};
use command_line::{Request, Task, parse};
use cut_ways::Alone;
use program_tasks::run_task;
use program_texts::{Fault, Line, Refusal, end_without_task, refuse_unread, say_end};
use rounds::{Open, Workers};
use std::alloc::{AllocError, Global};
use std::convert::AsStr;
use std::io;
use std::sync::Wait;
use std::thread::Threads;
use worker_options::{Gate, Options};

/// The size of a block that is freed before a run by workers: nearly the largest of which the C
/// library takes notice.
const FREED_BLOCK: usize = 31 << 20;

/// One whole run of the words that the system gave. Where it gave none, and only an error, that is
/// said, and the exit status is 2 where the error's kind is `InvalidData`, an argument that is not
/// text, and else 1, memory.
pub fn run_words<
    A: AllocGlobal + Threads + Wait + Sync,
    S: AsStr + Drop,
    R: Source,
    W: Sink,
    E: Sink,
>(rt: &A, words: io::Result<Vec<S>>, source: &mut R, sink: &mut W, faults: &mut E) -> u8
    ensures run { MatchResult words
        (λ given. IsRun (map S.text given.items)
        (streams (R.stream source.old) (W.stream sink.old) (E.stream faults.old))
        (streams (R.stream source.new) (W.stream sink.new) (E.stream faults.new)) result)
        (λ error. IsUnread (error_kind error)
        (streams (R.stream source.old) (W.stream sink.old) (E.stream faults.old))
        (streams (R.stream source.new) (W.stream sink.new) (E.stream faults.new)) result) }
    ensures kept { (W.loan sink.new ≡ W.loan sink.old) × (E.loan faults.new ≡ E.loan faults.old) }
{
    match words {
        Ok(given) => run(rt, given.as_slice(), source, sink, faults),
        Err(error) => refuse_unread(error.kind(), faults),
    }
}

/// One whole run of these words over a source, a sink and a sink for faults, which count their
/// failures. The first word is the program's name. Answers the exit status: 0 where the due text
/// was written, 1 where the run was refused and its line said, 2 where the words were refused. A
/// failed read is told exactly where a call of the source failed in this run, a write stops only
/// where a call of the sink did, and what is said is whole where none of its sink failed.
pub fn run<A: AllocGlobal + Threads + Wait + Sync, S: AsStr, R: Source, W: Sink, E: Sink>(
    rt: &A,
    words: &[S],
    source: &mut R,
    sink: &mut W,
    faults: &mut E,
) -> u8
    ensures run { IsRun (map S.text words.now)
        (streams (R.stream source.old) (W.stream sink.old) (E.stream faults.old))
        (streams (R.stream source.new) (W.stream sink.new) (E.stream faults.new)) result }
    ensures kept { (W.loan sink.new ≡ W.loan sink.old) × (E.loan faults.new ≡ E.loan faults.old) }
{
    let open = Open;
    let gate: &(dyn Gate + Sync) = &open;
    run_gated(rt, words, gate, source, sink, faults)
}

/// The same run, in which a gate lets each turn of a worker pass or not. A run of words that ask
/// for no workers does not ask it.
pub fn run_gated<A: AllocGlobal + Threads + Wait + Sync, S: AsStr, R: Source, W: Sink, E: Sink>(
    rt: &A,
    words: &[S],
    gate: &(dyn Gate + Sync),
    source: &mut R,
    sink: &mut W,
    faults: &mut E,
) -> u8
    ensures run { IsRun (map S.text words.now)
        (streams (R.stream source.old) (W.stream sink.old) (E.stream faults.old))
        (streams (R.stream source.new) (W.stream sink.new) (E.stream faults.new)) result }
    ensures kept { (W.loan sink.new ≡ W.loan sink.old) × (E.loan faults.new ≡ E.loan faults.old) }
{
    let end = perform(rt, rt.alloc(), words, gate, source, sink);
    say_end(faults, end)
}

// Does what the words ask for, and answers what is to be said beside it.
fn perform<A: Threads + Wait + Sync, S: AsStr, R: Source, W: Sink>(
    rt: &A,
    alloc: Global,
    words: &[S],
    gate: &(dyn Gate + Sync),
    source: &mut R,
    sink: &mut W,
) -> Result<Line, Refusal>
    ensures done { IfOk result (λ said. Writes (IsDue (map S.text words.now) (R.stream source.old))
        (W.stream sink.old) (W.stream sink.new) said.bytes
        × ((R.stream source.new).failures ≡ (R.stream source.old).failures)) }
    ensures refused { IfErr result (IsRefusalFor (map S.text words.now)
        (R.stream source.old) (R.stream source.new) (W.stream sink.old) (W.stream sink.new)) }
    ensures kept { W.loan sink.new ≡ W.loan sink.old }
{
    match parse(alloc, words) {
        Ok(request) => Ok(answer_request(rt, alloc, request, gate, source, sink)?),
        Err(no_task) => end_without_task(no_task, sink),
    }
}

// One command over its input, by the workers that are asked for, or else on one thread.
fn answer_request<A: Threads + Wait + Sync, R: Source, W: Sink>(
    rt: &A,
    alloc: Global,
    request: Request,
    gate: &(dyn Gate + Sync),
    source: &mut R,
    sink: &mut W,
) -> Result<Line, Fault>
    requires { FitsRequest request }
    ensures done { IfOk result (λ said. Writes (IsDueFor request.task (R.stream source.old))
        (W.stream sink.old) (W.stream sink.new) said.bytes) }
    ensures refused { IfErr result (Refuses (IsDueFor request.task (R.stream source.old))
        (StandsForAsked request (R.stream source.old)) (W.stream sink.old) (W.stream sink.new)) }
    ensures read { TellsRead (R.stream source.old) (R.stream source.new) result }
    ensures kept { W.loan sink.new ≡ W.loan sink.old }
{
    match request.workers {
        None => run_task(alloc, request.task, &Alone, source, sink),
        Some(options) => run_by_workers(rt, alloc, request.task, options, gate, source, sink),
    }
}

// Frees a block that nothing was written to, so that it takes no memory. The C library keeps free
// memory up to twice the largest block that was freed. So each part of a move finds what the parts
// before it have freed, and does not ask the system for its pages anew. If the block is refused,
// the run is slower.
fn keep_freed(alloc: Global) {
    let _block: Result<Vec<u8>, AllocError> = Vec::with_capacity(alloc, FREED_BLOCK);
}

// One command over its input, its cuts by workers with this gate.
fn run_by_workers<A: Threads + Wait + Sync, R: Source, W: Sink>(
    rt: &A,
    alloc: Global,
    task: Task,
    options: Options,
    gate: &(dyn Gate + Sync),
    source: &mut R,
    sink: &mut W,
) -> Result<Line, Fault>
    requires { FitsTask task }
    ensures done { IfOk result (λ said. Writes (IsDueFor task (R.stream source.old))
        (W.stream sink.old) (W.stream sink.new) said.bytes) }
    ensures refused { IfErr result (Refuses (IsDueFor task (R.stream source.old))
        (IsFaultFor (MayFailToSolve options) task (R.stream source.old)) (W.stream sink.old)
        (W.stream sink.new)) }
    ensures read { TellsRead (R.stream source.old) (R.stream source.new) result }
    ensures kept { W.loan sink.new ≡ W.loan sink.old }
{
    keep_freed(alloc);
    let how = Workers {
        rt,
        options,
        gate: &gate,
    };
    run_task(alloc, task, &how, source, sink)
}
