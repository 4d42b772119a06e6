//! `gco label`.
ghost use Rattle.std.specs.Prelude.{◌≡◌, ◌≤◌, IfOk, IfErr, IfSome};
ghost use Rattle.command_line.specs.declared.task.Task.TheVariants.{Label as LabelTask};
ghost use Rattle.problem_files.specs.Limits.{IsInLimits};
ghost use Rattle.problem_files.specs.Names.{problem_view};
ghost use Rattle.label_field.specs.LabelFields.{LabelField};
ghost use Rattle.moves.specs.Problems.{IsRunRefusal};
ghost use Rattle.moves.specs.Runs.{AnswersRun, IsRunInRange};
ghost use Rattle.program_tasks.specs.Instances.{instance_named};
ghost use Rattle.run_options.specs.Limits.{greatest_smooth_cost};
ghost use Rattle.program_tasks.specs.Commands.{IsDueFor, IsFaultFor};
ghost use Rattle.program_tasks.specs.Label.{AnswersProblem, HasReadingFault, HoldsProblem};
ghost use Rattle.program_tasks.specs.Label.{IsRunFault};
ghost use Rattle.program_tasks.specs.Label.{parts_of, run_text};
ghost use Rattle.program_tasks.specs.Refusals.{TellsRead};
ghost use Rattle.program_tasks.specs.Inputs.{OfSomeInput};

use crate::bounds::near_of_bound;
use crate::library_faults::move_fault;
use byte_streams::{Source, read_input};
use cut_ways::Sharing;
use moves::{MoveError, Request, Run, run_tables};
use problem_files::{LabelProblem, read_label};
use program_texts::{Answer, EnergyParts, Fault, Line, label_text};
use std::alloc::{AllocError, Global};

/// Where the moves of the problem that the input is end, and how near that is to the least energy
/// where it is asked for. Nothing is said beside it.
pub fn answer_label<H: Sharing, R: Source>(
    alloc: Global,
    bound: bool,
    how: &H,
    source: &mut R,
) -> Result<Answer, Fault>
    requires { H.ready how.now }
    ensures due { IfOk result (λ a.
        IsDueFor (LabelTask bound) (R.stream source.old) a.text.items a.said.bytes) }
    ensures stands { IfErr result
        (IsFaultFor (H.refuses how.now) (LabelTask bound) (R.stream source.old)) }
    ensures read { TellsRead (R.stream source.old) (R.stream source.new) result }
{
    let problem = read_problem(alloc, source)?;
    Ok(Answer {
        text: answer_problem(alloc, problem, bound, how)?,
        said: Line::new(),
    })
}

// The problem that the input names.
fn read_problem<R: Source>(alloc: Global, source: &mut R) -> Result<LabelProblem, Fault>
    ensures named { IfOk result (λ problem. OfSomeInput (R.stream source.old)
        (λ input. HoldsProblem input (problem_view problem))) }
    ensures limits { IfOk result (λ problem. IsInLimits (problem_view problem)) }
    ensures stands { IfErr result (λ fault. OfSomeInput (R.stream source.old)
        (λ input. HasReadingFault input fault)) }
    ensures read { TellsRead (R.stream source.old) (R.stream source.new) result }
{
    let bytes = read_input(alloc, source)?;
    Ok(read_label(alloc, bytes.as_slice())?)
}

// The text of the answer to a problem.
fn answer_problem<H: Sharing>(
    alloc: Global,
    problem: LabelProblem,
    bound: bool,
    how: &H,
) -> Result<Vec<u8>, Fault>
    requires limits { IsInLimits (problem_view problem) }
    requires ready { H.ready how.now }
    ensures told { IfOk result (λ text. AnswersProblem (problem_view problem) bound text.items) }
    ensures refused { IfErr result (IsRunFault (H.refuses how.now) (problem_view problem)) }
{
    let tells = problem.label_costs.is_some();
    match run_named(alloc, problem, how) {
        Ok(run) => Ok(run_text(alloc, &run, tells, bound)?),
        Err(error) => Err(move_fault(error)),
    }
}

// Makes the moves that a problem asks for, from its start, and answers where they ended.
//
// Refused: `LabelCostInSwap`, before any move, exactly where swaps are asked for and some label
// costs something by itself; `PairNotRegular` where the next move of the chain has a term that is
// not regular; what `how` refuses; and out of memory.
fn run_named<H: Sharing>(alloc: Global, problem: LabelProblem, how: &H) -> Result<Run, MoveError>
    requires limits { IsInLimits (problem_view problem) }
    requires ready { H.ready how.now }
    ensures run { AnswersRun (instance_named (problem_view problem))
        problem.moves problem.cycles problem.start.at
        result }
    ensures refused { IfErr result (IsRunRefusal (H.refuses how.now)) }
    ensures sized { IfOk result (IsRunInRange problem.start) }
    ensures bounded { IfOk result
        (λ run. IfSome run.bound (λ bound. bound.vmax ≤ greatest_smooth_cost)) }
{
    let pairs = problem.pairs;
    let start = problem.start;
    let data = problem.data;
    let smooth = problem.smooth;
    run_tables(
        alloc,
        pairs,
        data.as_slice(),
        smooth.as_slice(),
        problem.label_costs,
        Request {
            start,
            moves: problem.moves,
            cycles: problem.cycles,
        },
        how,
    )
}

// What is printed of a run: the cost of the labels by themselves where it is to be told, the bound
// where it is asked for.
fn run_text(alloc: Global, run: &Run, tells: bool, bound: bool) -> Result<Vec<u8>, AllocError>
    requires sized { (start : LabelField) × IsRunInRange start run.now }
    requires bounded { IfSome run.now.bound (λ bound. bound.vmax ≤ greatest_smooth_cost) }
    ensures { IfOk result (λ text. text.items ≡ run_text tells bound run.now) }
{
    let near = near_of_bound(run.bound);
    label_text(
        alloc,
        parts_of(run),
        run.labelling.as_slice(),
        near,
        tells,
        bound,
    )
}

// The energy of a run, and its parts.
fn parts_of(run: &Run) -> EnergyParts
    requires { (start : LabelField) × IsRunInRange start run.now }
    ensures { result ≡ parts_of run.now }
{
    let data = run.data.unsigned_abs();
    let smooth = run.smooth.unsigned_abs();
    let label = run.label.unsigned_abs();
    EnergyParts {
        energy: data + smooth + label,
        data,
        smooth,
        label,
    }
}
