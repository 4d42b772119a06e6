//! The options of the image commands: one field for each, and the test that all are in their
//! ranges.
ghost use Rattle.std.specs.Prelude.{◌↔◌, ◌≤◌, IfSome, IsTrue};
ghost use Rattle.run_options.specs.Ranges.{AreRestoreOptions, AreRunOptions, AreSegmentOptions};
ghost use Rattle.run_options.specs.Ranges.{AreStereoOptions};
ghost use Rattle.run_options.specs.Limits.{greatest_label_cost};

use crate::{CAP_LIMIT, CYCLE_LIMIT, LABEL_COST_LIMIT, MAXVAL_LIMIT, Shape, TRUNC_LIMIT};
use label_energies::Moves;
use label_field::{LABEL_LIMIT, WEIGHT_LIMIT};

/// Which pixels of a picture are in a pair.
#[derive(Clone, Copy, Debug, PartialEq, Eq)]
pub enum Neighbours {
    /// Those that share an edge.
    Four,
    /// Those that share an edge or a corner.
    Eight,
}

/// The options of restoring a picture: its labels are its grey levels.
#[derive(Clone, Copy, Debug, PartialEq, Eq)]
pub struct RestoreOptions {
    /// The cost of two labels at the pixels of a pair.
    pub smooth: Shape,
    /// At what a cost by distance is cut off, from 1 to `TRUNC_LIMIT`.
    pub trunc: u32,
    /// The weight of each pair, from 0 to `WEIGHT_LIMIT`.
    pub weight: u32,
    /// The pairs of pixels.
    pub neighbours: Neighbours,
    /// The moves of the run.
    pub moves: Moves,
    /// The most cycles of the run, from 0 to `CYCLE_LIMIT`.
    pub cycles: u32,
    /// What each label costs by itself, wherever some pixel has it, from 0 to `LABEL_COST_LIMIT`,
    /// where that is asked for.
    pub label_cost: Option<u32>,
    /// Whether it is to be told how near the picture is to the least energy.
    pub bound: bool,
}

/// The options of matching a left and a right picture: a label is how far a pixel of the left one
/// has moved to the left in the right one.
#[derive(Clone, Copy, Debug, PartialEq, Eq)]
pub struct StereoOptions {
    /// The cost of two labels at the pixels of a pair.
    pub smooth: Shape,
    /// At what a cost by distance is cut off, from 1 to `TRUNC_LIMIT`.
    pub trunc: u32,
    /// The weight of each pair, from 0 to `WEIGHT_LIMIT`.
    pub weight: u32,
    /// The pairs of pixels.
    pub neighbours: Neighbours,
    /// The moves of the run.
    pub moves: Moves,
    /// The most cycles of the run, from 0 to `CYCLE_LIMIT`.
    pub cycles: u32,
    /// How many labels there are, from 1 to `LABEL_LIMIT`.
    pub labels: u32,
    /// At what the cost of a label at a pixel is cut off, from 0 to `CAP_LIMIT`.
    pub cap: u32,
    /// Whether it is to be told how near the picture is to the least energy.
    pub bound: bool,
}

/// The options of parting a picture in two: label 0 is near the one sample, label 1 near the other.
#[derive(Clone, Copy, Debug, PartialEq, Eq)]
pub struct SegmentOptions {
    /// The sample of label 0, from 0 to `MAXVAL_LIMIT`.
    pub low: u32,
    /// The sample of label 1, from 0 to `MAXVAL_LIMIT`.
    pub high: u32,
    /// The weight of a pair whose samples differ by at most `edge`, from 0 to `WEIGHT_LIMIT`.
    pub strong: u32,
    /// The weight of a pair whose samples differ by more than `edge`, from 0 to `WEIGHT_LIMIT`.
    pub weak: u32,
    /// The greatest difference of two samples between which no edge runs, from 0 to `MAXVAL_LIMIT`.
    pub edge: u32,
    /// The pairs of pixels.
    pub neighbours: Neighbours,
    /// The most cycles of the run, from 0 to `CYCLE_LIMIT`.
    pub cycles: u32,
}

impl RestoreOptions {
    /// Whether each number is in its range.
    pub fn fits(&self) -> bool
        ensures { IsTrue result ↔ AreRestoreOptions self.now }
    {
        run_fits(self.trunc, self.weight, self.cycles) && cost_fits(self.label_cost)
    }
}

impl StereoOptions {
    /// Whether each number is in its range.
    pub fn fits(&self) -> bool
        ensures { IsTrue result ↔ AreStereoOptions self.now }
    {
        run_fits(self.trunc, self.weight, self.cycles)
            && 1 <= self.labels
            && self.labels <= LABEL_LIMIT
            && self.cap <= CAP_LIMIT
    }
}

impl SegmentOptions {
    /// Whether each number is in its range.
    pub fn fits(&self) -> bool
        ensures { IsTrue result ↔ AreSegmentOptions self.now }
    {
        self.low <= MAXVAL_LIMIT
            && self.high <= MAXVAL_LIMIT
            && self.strong <= WEIGHT_LIMIT
            && self.weak <= WEIGHT_LIMIT
            && self.edge <= MAXVAL_LIMIT
            && self.cycles <= CYCLE_LIMIT
    }
}

fn run_fits(trunc: u32, weight: u32, cycles: u32) -> bool
    ensures { IsTrue result ↔ AreRunOptions trunc weight cycles }
{
    1 <= trunc && trunc <= TRUNC_LIMIT && weight <= WEIGHT_LIMIT && cycles <= CYCLE_LIMIT
}

fn cost_fits(label_cost: Option<u32>) -> bool
    ensures { IsTrue result ↔ IfSome label_cost (λ cost. cost ≤ greatest_label_cost) }
{
    match label_cost {
        Some(cost) => cost <= LABEL_COST_LIMIT,
        None => true,
    }
}
