//! Parting a picture in two.
ghost use Rattle.std.specs.Prelude.{◌≡◌, ◌*◌, ◌<◌, ◌≤◌, pos, All, IfOk, IfErr, MatchOption};
ghost use Rattle.std.specs.Prelude.{MatchResult, length, slice_index};
ghost use Rattle.run_options.specs.Ranges.{AreSegmentOptions};
ghost use Rattle.pgm_image.specs.Raster.{IsFirstAbove};
ghost use Rattle.vision.specs.Faults.{HasRunError, HasSegmentError, IsWrite, LeavesWriter};
ghost use Rattle.vision.specs.Faults.{IsOfPair};
ghost use Rattle.vision.specs.Inputs.{IsSegmentJob, SameSizes};
ghost use Rattle.vision.specs.Jobs.{WritesPicture, IsReadyToWrite, Job, segment_job};
ghost use Rattle.vision.specs.Problems.{part_cost};

use crate::inputs::read_two;
use crate::job::{Finished, Plan, is_metric_cost, put_finished, run_job, smooth_costs};
use crate::pairs::edge_pairs;
use crate::{Report, VisionError};
use byte_streams::Sink;
use cost_store::DataCost;
use label_energies::Moves;
use moves::{LabelPrices, Sharing};
use pgm_image::Image;
use run_options::{SegmentOptions, Shape};
use std::alloc::Global;

/// The greatest seed: a pixel is free (0), or has label 0 (1) or label 1 (2).
const SEED_LIMIT: u16 = 2;

/// What the other label costs a seed.
const SEED_COST: u32 = 10_000_000;

/// Parts the picture of the input in two, by the seeds of a second picture, and writes the labels
/// as `P5`.
///
/// A label is 0 or 1. It costs a free pixel the distance of its sample to `low` or to `high`, and a
/// seed of label 0 or of label 1 nothing or 10,000,000: a seed is a cost, not a bar. Two unequal
/// labels cost a pair of neighbours `strong` where their samples differ by at most `edge`, else
/// `weak`. The picture that is written has the labels where the chain of best expansions from all 0
/// ends, as samples, and maxval 1; the report has their energy. Nothing is written before the last
/// move is finished. Between the images there may be white space, and what follows the second is
/// not looked at.
///
/// Refused, the first that holds: as `read_image` is where no image is at the front of the input,
/// or none behind it (`Image`), `SizesDiffer` where they differ in width or height,
/// `BadSeed` with the first seed above 2, as the run of moves is (`Workers`, `BadOptions`), but
/// never for a pair, `Write` where the sink failed, which then took the first bytes of the
/// picture's written form, as many as are told. `OutOfMemory` may come before the first byte is
/// written. The options are to be in their ranges, which `fits` tells.
pub fn run_segment<H: Sharing, S: Sink>(
    alloc: Global,
    input: &[u8],
    options: &SegmentOptions,
    how: &H,
    sink: &mut S,
) -> Result<Report, VisionError>
    requires options { AreSegmentOptions options.now }
    requires ready { H.ready how.now }
    ensures done { IfOk result (λ report. (job : Job) × IsSegmentJob options.now input.now job
        × WritesPicture job (S.stream sink.old) (S.stream sink.new) report) }
    ensures refused { IfErr result (LeavesWriter (IsSegmentJob options.now input.now)
        (HasSegmentError (H.refuses how.now) options.now input.now) (S.stream sink.old)
        (S.stream sink.new)) }
    ensures metric { IfErr result (λ e. ¬ IsOfPair e) }
    ensures unchanged { IfErr result (λ e. (¬ IsWrite e) → sink.new ≡ sink.old) }
    ensures kept { S.loan sink.new ≡ S.loan sink.old }
{
    let finished = part_input(alloc, input, options, how)?;
    put_finished(&finished, sink)
}

/// The picture of the labels of the input.
fn part_input<H: Sharing>(
    alloc: Global,
    input: &[u8],
    options: &SegmentOptions,
    how: &H,
) -> Result<Finished, VisionError>
    requires options { AreSegmentOptions options.now }
    requires ready { H.ready how.now }
    ensures finished { IfOk result (λ f. (job : Job) × IsSegmentJob options.now input.now job
        × IsReadyToWrite job f) }
    ensures refused { IfErr result (HasSegmentError (H.refuses how.now) options.now input.now) }
    ensures metric { IfErr result (λ e. ¬ IsOfPair e) }
{
    let (picture, seeds) = read_two(alloc, input)?;
    if let Some(index) = bad_seed(seeds.samples()) {
        return Err(VisionError::BadSeed(index));
    }
    part(alloc, &picture, &seeds, options, how)
}

/// The first seed that is none.
fn bad_seed(seeds: &[u16]) -> Option<usize>
    ensures { MatchOption result (All (λ seed. seed ≤ 2) seeds.now) (IsFirstAbove 2 seeds.now) }
{
    for index in 0..seeds.len() {
        if seeds[index] > SEED_LIMIT {
            return Some(index);
        }
    }
    None
}

/// The picture of the labels of a picture and its seeds.
fn part<H: Sharing>(
    alloc: Global,
    picture: &Image,
    seeds: &Image,
    options: &SegmentOptions,
    how: &H,
) -> Result<Finished, VisionError>
    requires options { AreSegmentOptions options.now }
    requires sizes { SameSizes picture.now seeds.now }
    requires ready { H.ready how.now }
    ensures run { MatchResult result
        (IsReadyToWrite (segment_job options.now picture.now seeds.now))
        (HasRunError (H.refuses how.now) (segment_job options.now picture.now seeds.now)) }
    ensures metric { IfErr result (λ e. ¬ IsOfPair e) }
{
    let smooth = smooth_costs(alloc, Shape::Potts, 1, 2)?;
    let table = smooth.as_slice();
    let by_metric = is_metric_cost(Shape::Potts, table, 2);
    let pairs = edge_pairs(alloc, picture, options)?;
    let plan = Plan {
        moves: Moves::Expansion,
        cycles: options.cycles,
        bound: false,
        maxval: 1,
    };
    let samples = picture.samples();
    let marks = seeds.samples();
    let data_cost = DataCost::new(
        |site: u32, label: u32| -> i64
            requires { (site < length samples.now) × (site < length marks.now) }
            ensures { result ≡ pos (part_cost options.entry.now (slice_index samples.entry.now site)
                (slice_index marks.entry.now site) label) }
        {
            let sample = u32::from(samples[site as usize]);
            let seed = u32::from(marks[site as usize]);
            i64::from(part_cost(options, sample, seed, label))
        },
        picture.width() * picture.height(),
        2,
    );
    let prices = LabelPrices {
        smooth: table,
        by_metric,
        label_costs: None,
    };
    run_job(alloc, picture, plan, pairs, data_cost, prices, how)
}

/// What a label costs a pixel of this sample and this seed.
fn part_cost(options: &SegmentOptions, sample: u32, seed: u32, label: u32) -> u32
    ensures { result ≡ part_cost options.now sample seed label }
{
    let first = label == 0;
    match seed {
        0 => sample.abs_diff(if first { options.low } else { options.high }),
        1 => if first { 0 } else { SEED_COST },
        _ => if first { SEED_COST } else { 0 },
    }
}
