//! Matching a left and a right picture.
ghost use Rattle.std.specs.Prelude.{◌≡◌, ◌≢◌, ◌-◌, ◌*◌, ◌%◌, ◌<◌, ◌≤◌, pos, min};
ghost use Rattle.std.specs.Prelude.{IfOk, IfErr, MatchResult, length};
ghost use Rattle.run_options.specs.Ranges.{AreStereoOptions};
ghost use Rattle.pgm_image.specs.Picture.{sample_limit};
ghost use Rattle.run_options.specs.declared.shape.Shape.TheVariants.{Quadratic};
ghost use Rattle.vision.specs.Faults.{HasRunError, HasStereoError, IsWrite, LeavesWriter, IsOfPair};
ghost use Rattle.vision.specs.Inputs.{IsStereoJob, SameSizes};
ghost use Rattle.vision.specs.Jobs.{WritesPicture, IsReadyToWrite, Job, stereo_job};
ghost use Rattle.vision.specs.Problems.{AreColumns, cost_by_columns};

use crate::inputs::read_two;
use crate::job::{Finished, Plan, is_metric_cost, put_finished, run_job, smooth_costs};
use crate::pairs::pairs_of;
use crate::{Report, VisionError};
use byte_streams::Sink;
use cost_store::DataCost;
use moves::{LabelPrices, Sharing};
use pgm_image::Image;
use run_options::StereoOptions;
use std::alloc::{AllocError, Global};

/// Matches the two pictures of the input, the left one first, and writes the shifts of the left
/// one's pixels as `P5`.
///
/// A label is a shift: so many columns to the left is the pixel of the right picture that shows the
/// same. It costs a pixel the distance of the two samples, as they stand, but at most the cap, and
/// the cap where the picture has no such column; two labels cost a pair of neighbours the weight
/// times their smooth cost. The picture that is written has the labels where the chain of best
/// moves from all 0 ends, as samples, and as maxval the greatest label, but at least 1; the report
/// has their energy, and how near it is to the least where that is asked for. Nothing is written
/// before the last move is finished. Between the images there may be white space, and what follows
/// the second is not looked at.
///
/// Refused, the first that holds: as `read_image` is where no image is at the front of the input,
/// or none behind it (`Image`), `SizesDiffer` where they differ in width or height,
/// as the run of moves is (`PairNotRegular` to `BadOptions`), `Write` where the sink failed, which
/// then took the first bytes of the picture's written form, as many as are told. `OutOfMemory` may
/// come before the first byte is written. `Potts` and `Linear` costs are a metric: with them no
/// move is refused for a pair. The options are to be in their ranges, which `fits` tells.
pub fn run_stereo<H: Sharing, S: Sink>(
    alloc: Global,
    input: &[u8],
    options: &StereoOptions,
    how: &H,
    sink: &mut S,
) -> Result<Report, VisionError>
    requires options { AreStereoOptions options.now }
    requires ready { H.ready how.now }
    ensures done { IfOk result (λ report. (job : Job) × IsStereoJob options.now input.now job
        × WritesPicture job (S.stream sink.old) (S.stream sink.new) report) }
    ensures refused { IfErr result (LeavesWriter (IsStereoJob options.now input.now)
        (HasStereoError (H.refuses how.now) options.now input.now) (S.stream sink.old)
        (S.stream sink.new)) }
    ensures metric { options.now.smooth ≢ Quadratic → IfErr result (λ e. ¬ IsOfPair e) }
    ensures unchanged { IfErr result (λ e. (¬ IsWrite e) → sink.new ≡ sink.old) }
    ensures kept { S.loan sink.new ≡ S.loan sink.old }
{
    let finished = match_input(alloc, input, options, how)?;
    put_finished(&finished, sink)
}

/// The picture of the shifts of the input.
fn match_input<H: Sharing>(
    alloc: Global,
    input: &[u8],
    options: &StereoOptions,
    how: &H,
) -> Result<Finished, VisionError>
    requires options { AreStereoOptions options.now }
    requires ready { H.ready how.now }
    ensures finished { IfOk result (λ f. (job : Job) × IsStereoJob options.now input.now job
        × IsReadyToWrite job f) }
    ensures refused { IfErr result (HasStereoError (H.refuses how.now) options.now input.now) }
    ensures metric { options.now.smooth ≢ Quadratic → IfErr result (λ e. ¬ IsOfPair e) }
{
    let (left, right) = read_two(alloc, input)?;
    match_pictures(alloc, &left, &right, options, how)
}

/// The picture of the shifts of two pictures of one size.
fn match_pictures<H: Sharing>(
    alloc: Global,
    left: &Image,
    right: &Image,
    options: &StereoOptions,
    how: &H,
) -> Result<Finished, VisionError>
    requires options { AreStereoOptions options.now }
    requires sizes { SameSizes left.now right.now }
    requires ready { H.ready how.now }
    ensures run { MatchResult result (IsReadyToWrite (stereo_job options.now left.now right.now))
        (HasRunError (H.refuses how.now) (stereo_job options.now left.now right.now)) }
    ensures metric { options.now.smooth ≢ Quadratic → IfErr result (λ e. ¬ IsOfPair e) }
{
    let labels = options.labels;
    let cap = options.cap;
    let smooth = smooth_costs(alloc, options.smooth, options.trunc, labels)?;
    let table = smooth.as_slice();
    let by_metric = is_metric_cost(options.smooth, table, labels);
    let pairs = pairs_of(alloc, left, options.neighbours, options.weight)?;
    let plan = Plan {
        moves: options.moves,
        cycles: options.cycles,
        bound: options.bound,
        maxval: (labels - 1).max(1),
    };
    let here = left.samples();
    let there = right.samples();
    let columns = columns_of(alloc, here, left.width())?;
    let columns = columns.as_slice();
    let data_cost = DataCost::new(
        |site: u32, shift: u32| -> i64
            requires { (site < length columns.now) × (site < length here.now)
                × (site < length there.now) }
            ensures { result ≡ pos (cost_by_columns cap columns.entry.now here.entry.now
                there.entry.now site shift) }
        { i64::from(shift_cost(cap, columns, here, there, site, shift)) },
        left.width() * left.height(),
        labels,
    );
    let prices = LabelPrices {
        smooth: table,
        by_metric,
        label_costs: None,
    };
    run_job(alloc, left, plan, pairs, data_cost, prices, how)
}

/// The greatest number of columns that is told: no shift is greater.
const COLUMN_LIMIT: u32 = 255;

/// Of each pixel of a picture of this width how many columns lie to its left, at most 255. So a
/// cost needs no division.
fn columns_of(alloc: Global, samples: &[u16], width: u32) -> Result<Vec<u8>, AllocError>
    requires width { 1 ≤ width }
    requires few { length samples.now ≤ sample_limit }
    ensures { IfOk result (λ columns. AreColumns width samples.now columns.items) }
{
    let mut columns = Vec::with_capacity(alloc, samples.len())?;
    for site in 0..samples.len() {
        columns.push_reserved((site as u32 % width).min(COLUMN_LIMIT) as u8);
    }
    Ok(columns)
}

/// What a shift costs a pixel of the left picture, by how many columns lie to the left of each.
fn shift_cost(cap: u32, columns: &[u8], left: &[u16], right: &[u16], site: u32, shift: u32) -> u32
    requires site { (site < length columns.now) × (site < length left.now)
        × (site < length right.now) }
    ensures cost { result ≡ cost_by_columns cap columns.now left.now right.now site shift }
    ensures capped { result ≤ cap }
{
    if u32::from(columns[site as usize]) < shift {
        return cap;
    }
    let here = u32::from(left[site as usize]);
    let there = u32::from(right[site.saturating_sub(shift) as usize]);
    here.abs_diff(there).min(cap)
}
