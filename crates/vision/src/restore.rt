//! Restoring a picture.
ghost use Rattle.std.specs.Prelude.{◌≡◌, ◌≢◌, ◌+◌, ◌<◌, ◌≤◌, pos, IfOk, IfErr, MatchResult, length};
ghost use Rattle.std.specs.Prelude.{slice_index};
ghost use Rattle.label_field.specs.Grids.{distance};
ghost use Rattle.label_field.specs.Limits.{label_limit};
ghost use Rattle.run_options.specs.Ranges.{AreRestoreOptions};
ghost use Rattle.run_options.specs.declared.shape.Shape.TheVariants.{Quadratic};
ghost use Rattle.vision.specs.Faults.{HasRestoreError, HasRunError, IsWrite, LeavesWriter};
ghost use Rattle.vision.specs.Faults.{IsOfPair};
ghost use Rattle.vision.specs.Inputs.{IsRestoreJob};
ghost use Rattle.vision.specs.Jobs.{WritesPicture, IsReadyToWrite, Job, restore_job};

use crate::inputs::read_one;
use crate::job::{
    Finished, Plan, equal_costs, is_metric_cost, put_finished, run_job, smooth_costs,
};
use crate::pairs::pairs_of;
use crate::{Report, VisionError};
use byte_streams::Sink;
use cost_store::DataCost;
use moves::{LabelPrices, Sharing};
use pgm_image::Image;
use run_options::RestoreOptions;
use std::alloc::Global;

/// The greatest maxval of a picture that is restored: a label takes one byte.
const LEVEL_LIMIT: u32 = 255;

/// Restores the picture at the front of the input, and writes the result as `P5`.
///
/// A label is a grey level from 0 to maxval. It costs a pixel the distance to its sample, two
/// labels cost a pair of neighbours the weight times their smooth cost, and each label that some
/// pixel has costs the label cost once, where one is given. The picture that is written has the
/// labels where the chain of best moves from all 0 ends, as samples, and the input's maxval; the
/// report has their energy, and how near it is to the least where that is asked for. Nothing is
/// written before the last move is finished. What follows the image in the input is not looked at.
///
/// Refused, the first that holds: as `read_image` is where no image is at the front of the input
/// (`Image`), `TooManyLevels` where maxval is above 255, as the run of moves is
/// (`PairNotRegular` to `BadOptions`): of `LabelCostInSwap` exactly where swaps are asked for and
/// the label cost is above 0; `Write` where the sink failed, which then took the first bytes of the
/// picture's written form, as many as are told. `OutOfMemory` may come before the first byte is
/// written. `Potts` and `Linear` costs are a metric: with them no move is refused for a pair. The
/// options are to be in their ranges, which `fits` tells.
pub fn run_restore<H: Sharing, S: Sink>(
    alloc: Global,
    input: &[u8],
    options: &RestoreOptions,
    how: &H,
    sink: &mut S,
) -> Result<Report, VisionError>
    requires options { AreRestoreOptions options.now }
    requires ready { H.ready how.now }
    ensures done { IfOk result (λ report. (job : Job) × IsRestoreJob options.now input.now job
        × WritesPicture job (S.stream sink.old) (S.stream sink.new) report) }
    ensures refused { IfErr result (LeavesWriter (IsRestoreJob options.now input.now)
        (HasRestoreError (H.refuses how.now) options.now input.now) (S.stream sink.old)
        (S.stream sink.new)) }
    ensures metric { options.now.smooth ≢ Quadratic → IfErr result (λ e. ¬ IsOfPair e) }
    ensures unchanged { IfErr result (λ e. (¬ IsWrite e) → sink.new ≡ sink.old) }
    ensures kept { S.loan sink.new ≡ S.loan sink.old }
{
    let finished = restore_input(alloc, input, options, how)?;
    put_finished(&finished, sink)
}

/// The restored picture of the input.
fn restore_input<H: Sharing>(
    alloc: Global,
    input: &[u8],
    options: &RestoreOptions,
    how: &H,
) -> Result<Finished, VisionError>
    requires options { AreRestoreOptions options.now }
    requires ready { H.ready how.now }
    ensures finished { IfOk result (λ f. (job : Job) × IsRestoreJob options.now input.now job
        × IsReadyToWrite job f) }
    ensures refused { IfErr result (HasRestoreError (H.refuses how.now) options.now input.now) }
    ensures metric { options.now.smooth ≢ Quadratic → IfErr result (λ e. ¬ IsOfPair e) }
{
    let picture = read_one(alloc, input)?;
    if picture.maxval() > LEVEL_LIMIT {
        return Err(VisionError::TooManyLevels);
    }
    restore(alloc, &picture, options, how)
}

/// The restored picture of another.
fn restore<H: Sharing>(
    alloc: Global,
    picture: &Image,
    options: &RestoreOptions,
    how: &H,
) -> Result<Finished, VisionError>
    requires options { AreRestoreOptions options.now }
    requires levels { picture.now.maxval ≤ 255 }
    requires ready { H.ready how.now }
    ensures run { MatchResult result (IsReadyToWrite (restore_job options.now picture.now))
        (HasRunError (H.refuses how.now) (restore_job options.now picture.now)) }
    ensures metric { options.now.smooth ≢ Quadratic → IfErr result (λ e. ¬ IsOfPair e) }
{
    let samples = picture.samples();
    let maxval = picture.maxval();
    let smooth = smooth_costs(alloc, options.smooth, options.trunc, maxval + 1)?;
    let table = smooth.as_slice();
    let by_metric = is_metric_cost(options.smooth, table, maxval + 1);
    let pairs = pairs_of(alloc, picture, options.neighbours, options.weight)?;
    let label_costs = equal_costs(alloc, options.label_cost, maxval + 1)?;
    let plan = restore_plan(options, maxval);
    let data_cost = DataCost::new(
        |site: u32, label: u32| -> i64
            requires { (site < length samples.now) × (label < label_limit) }
            ensures { result ≡ pos (distance (slice_index samples.entry.now site) label) }
        { i64::from(u32::from(samples[site as usize]).abs_diff(label)) },
        picture.width() * picture.height(),
        maxval + 1,
    );
    let prices = LabelPrices {
        smooth: table,
        by_metric,
        label_costs,
    };
    run_job(alloc, picture, plan, pairs, data_cost, prices, how)
}

/// The plan of a restoring that keeps this maxval.
fn restore_plan(options: &RestoreOptions, maxval: u32) -> Plan
    ensures { result ≡ record {
      moves = options.now.moves;
      cycles = options.now.cycles;
      bound = options.now.bound;
      maxval = maxval;
    } }
{
    Plan {
        moves: options.moves,
        cycles: options.cycles,
        bound: options.bound,
        maxval,
    }
}
