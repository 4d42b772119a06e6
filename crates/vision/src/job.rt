//! The run of a problem of labels over the pixels of a picture, and the picture that it makes.
ghost use Rattle.std.specs.Prelude.{◌≡◌, ◌↔◌, ℕ, ◌+◌, ◌*◌, ◌<◌, ◌≤◌, pos, ◌≤ℤ◌, ◌+ℤ◌, All, IfOk};
ghost use Rattle.std.specs.Prelude.{IfErr, IfSome, IsTrue, MatchResult, OnOk, length, unwrap_or};
ghost use Rattle.std.specs.Prelude.{if◌then◌else◌, false};
ghost use Rattle.byte_streams.specs.Streams.{Stops, Takes};
ghost use Rattle.label_field.specs.Limits.{label_limit};
ghost use Rattle.label_energies.specs.Energies.{Instance};
ghost use Rattle.cost_store.specs.Limits.{data_energy_limit, data_limit, label_energy_limit};
ghost use Rattle.cost_store.specs.Limits.{smooth_energy_limit, smooth_limit};
ghost use Rattle.cost_store.specs.LabelCosts.{cost_at, AreLabelCosts, HasCosts, costs_of};
ghost use Rattle.cost_store.specs.Promises.{IsCost, IsMetricTable, IsTable, Keeps};
ghost use Rattle.moves.specs.Instances.{IsInstanceOf};
ghost use Rattle.moves.specs.Prices.{ArePrices};
ghost use Rattle.pgm_image.specs.Picture.{IsPicture, maxval_limit, picture};
ghost use Rattle.pgm_image.specs.Written.{written_form};
ghost use Rattle.run_options.specs.Limits.{greatest_label_cost, trunc_limit};
ghost use Rattle.run_options.specs.Shapes.{shape_cost};
ghost use Rattle.vision.specs.Faults.{HasRunError, IsStop, IsOfPair};
ghost use Rattle.vision.specs.Jobs.{IsReadyToWrite, job_of};

use crate::error::run_error;
use crate::{Report, VisionError};
use byte_streams::Sink;
use cost_store::{DataCost, is_metric};
use label_energies::Moves;
use label_field::{Labelling, Pairs};
use moves::{Bound, LabelPrices, Request, Run, Sharing, run_with_table};
use pgm_image::{Image, put_image};
use run_options::{Shape, smooth_table};
use std::alloc::{AllocError, Global};

/// How a problem is run, whether a bound is asked for, and the maxval of the picture that its
/// labels make.
#[derive(Clone, Copy)]
pub(crate) struct Plan {
    pub moves: Moves,
    pub cycles: u32,
    pub bound: bool,
    pub maxval: u32,
}

/// A picture that is ready to be written, and what its labels cost.
#[derive(Drop)]
pub(crate) struct Finished {
    pub image: Image,
    pub report: Report,
}

/// Makes the moves of a problem on the pixels of a picture, from the label 0 everywhere, and the
/// picture of the last labels, which are its samples.
pub(crate) fn run_job<F: Fn(u32, u32) -> i64 + Sync, H: Sharing>(
    alloc: Global,
    picture: &Image,
    plan: Plan,
    pairs: Pairs,
    data_cost: DataCost<F>,
    prices: LabelPrices,
    how: &H,
) -> Result<Finished, VisionError>
    requires ready { H.ready how.now }
    requires weighted { pairs.numbered ≡ false }
    requires sites { (data_cost.sites ≡ picture.now.width * picture.now.height)
        × (pairs.sites ≡ picture.now.width * picture.now.height) }
    requires labels { (1 ≤ data_cost.labels) × (data_cost.labels ≤ label_limit) }
    requires maxval { (1 ≤ plan.maxval) × (data_cost.labels ≤ plan.maxval + 1)
        × (plan.maxval ≤ maxval_limit) }
    requires costs { Keeps (F.pre data_cost.f) (F.post data_cost.f) data_cost.sites data_cost.labels
        data_limit }
    requires prices { ArePrices data_cost.labels prices }
    ensures run { (m : Instance) →
        IsInstanceOf (F.post data_cost.f) pairs data_cost.labels prices.entry.smooth.now m →
        HasCosts m prices.entry.label_costs →
        MatchResult result (IsReadyToWrite
        (job_of m plan.moves plan.cycles plan.bound picture.now plan.maxval))
        (HasRunError (H.refuses how.now)
        (job_of m plan.moves plan.cycles plan.bound picture.now plan.maxval)) }
    ensures metric { IsMetricTable data_cost.labels prices.entry.smooth.now → (m : Instance) →
        IsInstanceOf (F.post data_cost.f) pairs data_cost.labels prices.entry.smooth.now m →
        HasCosts m prices.entry.label_costs →
        IfErr result (λ e. ¬ IsOfPair e) }
{
    let _valid = picture.samples();
    let start = Labelling::new(alloc, data_cost.sites, data_cost.labels)?;
    let run = match run_with_table(
        alloc,
        pairs,
        data_cost,
        prices,
        Request {
            start,
            moves: plan.moves,
            cycles: plan.cycles,
        },
        how,
    ) {
        Ok(run) => run,
        Err(error) => return Err(run_error(error)),
    };
    Ok(finish(alloc, picture, plan, &run)?)
}

/// The picture whose samples are the labels of a run, of the size of another picture, and the run's
/// report.
fn finish(alloc: Global, source: &Image, plan: Plan, run: &Run) -> Result<Finished, AllocError>
    requires sites { length run.now.labelling.at ≡ source.now.width * source.now.height }
    requires labels { run.now.labelling.labels ≤ plan.maxval + 1 }
    requires maxval { (1 ≤ plan.maxval) × (plan.maxval ≤ maxval_limit) }
    requires data { (pos 0 ≤ℤ run.now.«data») × (run.now.«data» ≤ℤ pos data_energy_limit) }
    requires smooth { (pos 0 ≤ℤ run.now.smooth) × (run.now.smooth ≤ℤ pos smooth_energy_limit) }
    requires label { (pos 0 ≤ℤ run.now.label) × (run.now.label ≤ℤ pos label_energy_limit) }
    ensures image { IfOk result (λ f. f.image
        ≡ picture source.now.width source.now.height plan.maxval run.now.labelling.at) }
    ensures valid { IfOk result (λ f. IsPicture f.image) }
    ensures report { IfOk result (λ f. f.report ≡ record {
      energy = (run.now.«data» +ℤ run.now.smooth) +ℤ run.now.label;
      data_part = run.now.«data»;
      smooth_part = run.now.smooth;
      label_part = run.now.label;
      bound = (if plan.bound then run.now.bound else None);
    }) }
{
    let _valid = source.samples();
    let samples = samples_of(alloc, run.labelling.as_slice())?;
    Ok(Finished {
        image: Image::new(source.width(), source.height(), plan.maxval, samples),
        report: report_of(plan.bound, run),
    })
}

/// What a run says of its labels, and of how near they are where that is asked for.
fn report_of(asked: bool, run: &Run) -> Report
    requires data { (pos 0 ≤ℤ run.now.«data») × (run.now.«data» ≤ℤ pos data_energy_limit) }
    requires smooth { (pos 0 ≤ℤ run.now.smooth) × (run.now.smooth ≤ℤ pos smooth_energy_limit) }
    requires label { (pos 0 ≤ℤ run.now.label) × (run.now.label ≤ℤ pos label_energy_limit) }
    ensures { result ≡ record {
      energy = (run.now.«data» +ℤ run.now.smooth) +ℤ run.now.label;
      data_part = run.now.«data»;
      smooth_part = run.now.smooth;
      label_part = run.now.label;
      bound = (if asked then run.now.bound else None);
    } }
{
    Report {
        energy: run.data + run.smooth + run.label,
        data_part: run.data,
        smooth_part: run.smooth,
        label_part: run.label,
        bound: if_asked(asked, run.bound),
    }
}

/// The bound, where one is asked for.
fn if_asked(asked: bool, bound: Option<Bound>) -> Option<Bound>
    ensures { result ≡ (if asked then bound else None) }
{
    if asked { bound } else { None }
}

/// The labels as samples.
fn samples_of(alloc: Global, labels: &[u8]) -> Result<Vec<u16>, AllocError>
    ensures { IfOk result (λ samples. samples.items ≡ labels.now) }
{
    labels.iter().map(|label| u16::from(*label)).collect(alloc)
}

/// The table of a smooth cost.
pub(crate) fn smooth_costs(
    alloc: Global,
    shape: Shape,
    trunc: u32,
    labels: u32,
) -> Result<Vec<i64>, AllocError>
    requires labels { labels ≤ label_limit }
    requires trunc { trunc ≤ trunc_limit }
    ensures table { IfOk result
        (λ table. IsTable labels labels (shape_cost shape trunc) table.items) }
    ensures costs { IfOk result (λ table. All (IsCost smooth_limit) table.items) }
{
    smooth_table(alloc, shape, trunc, labels)
}

/// Whether the table of a smooth cost is a metric: that of Potts costs and that of linear ones are,
/// wherever they are cut off, and another is tested.
pub(crate) fn is_metric_cost(shape: Shape, table: &[i64], labels: u32) -> bool
    requires labels { 1 ≤ labels }
    requires table { (most : ℕ) × (1 ≤ most)
        × IsTable labels labels (shape_cost shape most) table.now }
    ensures { IsTrue result ↔ IsMetricTable labels table.now }
{
    match shape {
        Shape::Potts => true,
        Shape::Linear => true,
        Shape::Quadratic => is_metric(table, labels),
    }
}

/// The same cost for each label by itself, where one is given.
pub(crate) fn equal_costs(
    alloc: Global,
    cost: Option<u32>,
    labels: u32,
) -> Result<Option<Vec<i64>>, AllocError>
    requires { IfSome cost (λ given. given ≤ greatest_label_cost) }
    ensures costs { IfOk result (AreLabelCosts labels) }
    ensures each { IfOk result (λ costs. (label : ℕ) → label < labels →
        cost_at (costs_of costs) label ≡ unwrap_or cost 0) }
{
    match cost {
        Some(cost) => Ok(Some(vec![in alloc; i64::from(cost); labels as usize]?)),
        None => Ok(None),
    }
}

/// Writes the picture, and answers the report.
pub(crate) fn put_finished<S: Sink>(
    finished: &Finished,
    sink: &mut S,
) -> Result<Report, VisionError>
    ensures told { IfOk result (λ report. report ≡ finished.now.report) }
    ensures takes { OnOk result
        (Takes (S.stream sink.old) (S.stream sink.new) (written_form finished.now.image)) }
    ensures stops { IfErr result (IsStop
        (Stops (S.stream sink.old) (S.stream sink.new) (written_form finished.now.image))) }
    ensures kept { S.loan sink.new ≡ S.loan sink.old }
{
    put_image(&finished.image, sink)?;
    Ok(finished.report)
}
