//! `gco energy`.
ghost use Rattle.std.specs.Prelude.{IfOk, IfErr};
ghost use Rattle.command_line.specs.declared.task.Task.TheVariants.{Energy as EnergyTask};
ghost use Rattle.program_tasks.specs.Commands.{IsDueFor, IsFaultFor};
ghost use Rattle.program_tasks.specs.Energy.{HasFileFault, HoldsEnergy};
ghost use Rattle.program_tasks.specs.Refusals.{TellsRead};
ghost use Rattle.program_tasks.specs.Inputs.{OfSomeInput};

use byte_streams::{Source, read_input};
use cut_ways::Sharing;
use problem_files::read_energy;
use program_texts::{Answer, Fault, Line, energy_answer};
use pseudo_bool::Energy;
use regular::check;
use std::alloc::Global;

/// The answer to the problem file that the input is. Nothing is said beside it.
pub fn answer_energy<H: Sharing, R: Source>(
    alloc: Global,
    how: &H,
    source: &mut R,
) -> Result<Answer, Fault>
    requires { H.ready how.now }
    ensures due { IfOk result
        (λ a. IsDueFor EnergyTask (R.stream source.old) a.text.items a.said.bytes) }
    ensures stands { IfErr result
        (IsFaultFor (H.refuses how.now) EnergyTask (R.stream source.old)) }
    ensures read { TellsRead (R.stream source.old) (R.stream source.new) result }
{
    let energy = read_problem(alloc, source)?;
    let regular = check(&energy)?;
    Ok(Answer {
        text: energy_answer(alloc, regular, how)?,
        said: Line::new(),
    })
}

// The energy that the input names.
fn read_problem<R: Source>(alloc: Global, source: &mut R) -> Result<Energy, Fault>
    ensures named { IfOk result (λ energy.
        OfSomeInput (R.stream source.old) (λ input. HoldsEnergy input energy)) }
    ensures stands { IfErr result (λ fault.
        OfSomeInput (R.stream source.old) (λ input. HasFileFault input fault)) }
    ensures read { TellsRead (R.stream source.old) (R.stream source.new) result }
{
    let bytes = read_input(alloc, source)?;
    Ok(read_energy(alloc, bytes.as_slice())?)
}
