//! The options of the image commands, as C hands them over.
ghost use Rattle.std.specs.Prelude.{◌≡◌, ◌↔◌, ℕ, ◌<◌, All, IsTrue, MatchOption};
ghost use Rattle.gco_pictures.specs.Options.{IsFirstWrong, IsOptionInRange, cost_numbered};
ghost use Rattle.gco_pictures.specs.Options.{moves_numbered, neighbours_numbered, between};
ghost use Rattle.gco_pictures.specs.Options.{restore_numbers, restore_options, segment_numbers};
ghost use Rattle.gco_pictures.specs.Options.{segment_options, shape_numbered, stereo_numbers};
ghost use Rattle.gco_pictures.specs.Options.{stereo_options};

use label_energies::Moves;
use label_field::{LABEL_LIMIT, WEIGHT_LIMIT};
use run_options::{
    CAP_LIMIT, CYCLE_LIMIT, LABEL_COST_LIMIT, MAXVAL_LIMIT, Neighbours, RestoreOptions,
    SegmentOptions, Shape, StereoOptions, TRUNC_LIMIT,
};

/// The options of restoring a picture.
#[repr(C)]
#[derive(Clone, Copy)]
pub struct GcoRestore {
    /// The cost of two labels: 0 is Potts, 1 linear, 2 quadratic.
    pub smooth: u32,
    /// At what a cost by distance is cut off, from 1 to 10,000.
    pub trunc: u32,
    /// The weight of each pair, from 0 to 1,000.
    pub weight: u32,
    /// The pairs of pixels: 0 are those that share an edge, 1 those with a corner in common, too.
    pub neighbours: u32,
    /// 0 are expansions, 1 swaps.
    pub moves: u32,
    /// The most cycles, from 0 to 1,000.
    pub cycles: u32,
    /// What each label costs by itself, wherever some pixel has it, from 0 to 10,000,000.
    pub label_cost: u32,
}

/// The options of matching two pictures.
#[repr(C)]
#[derive(Clone, Copy)]
pub struct GcoStereo {
    /// How many labels there are, from 1 to 256.
    pub labels: u32,
    /// At what the cost of a label at a pixel is cut off, from 0 to 10,000,000.
    pub cap: u32,
    /// As of `GcoRestore`.
    pub smooth: u32,
    pub trunc: u32,
    pub weight: u32,
    pub neighbours: u32,
    pub moves: u32,
    pub cycles: u32,
}

/// The options of parting a picture in two.
#[repr(C)]
#[derive(Clone, Copy)]
pub struct GcoSegment {
    /// The sample of label 0, from 0 to 65,535.
    pub low: u32,
    /// The sample of label 1, from 0 to 65,535.
    pub high: u32,
    /// The weight of a pair whose samples differ by at most `edge`, from 0 to 1,000.
    pub strong: u32,
    /// The weight of another pair, from 0 to 1,000.
    pub weak: u32,
    /// The greatest difference of two samples between which no edge runs, from 0 to 65,535.
    pub edge: u32,
    /// As of `GcoRestore`.
    pub neighbours: u32,
    pub cycles: u32,
}

/// A number beside the least and the greatest that it may be.
#[derive(Clone, Copy)]
pub(crate) struct Ranged {
    pub(crate) value: u32,
    pub(crate) least: u32,
    pub(crate) most: u32,
}

fn between(value: u32, least: u32, most: u32) -> Ranged
    ensures { result ≡ between value least most }
{
    Ranged { value, least, most }
}

fn is_within(number: Ranged) -> bool
    ensures { IsTrue result ↔ IsOptionInRange number }
{
    number.least <= number.value && number.value <= number.most
}

/// The first number out of its range.
pub(crate) fn first_wrong(numbers: &[Ranged]) -> Option<usize>
    ensures { MatchOption result (All IsOptionInRange numbers.now) (IsFirstWrong numbers.now) }
{
    for place in 0..numbers.len() {
        if !is_within(numbers[place]) {
            return Some(place);
        }
    }
    None
}

impl GcoRestore {
    /// Its numbers, in their order.
    pub(crate) fn numbers(&self) -> [Ranged; 7]
        ensures { result ≡ restore_numbers self.now }
    {
        [
            between(self.smooth, 0, 2),
            between(self.trunc, 1, TRUNC_LIMIT),
            between(self.weight, 0, WEIGHT_LIMIT),
            between(self.neighbours, 0, 1),
            between(self.moves, 0, 1),
            between(self.cycles, 0, CYCLE_LIMIT),
            between(self.label_cost, 0, LABEL_COST_LIMIT),
        ]
    }

    /// What they name, where each is in its range.
    pub(crate) fn options(&self) -> RestoreOptions
        ensures { result ≡ restore_options self.now }
    {
        RestoreOptions {
            smooth: shape(self.smooth),
            trunc: self.trunc,
            weight: self.weight,
            neighbours: neighbours(self.neighbours),
            moves: moves(self.moves),
            cycles: self.cycles,
            label_cost: label_cost(self.label_cost),
            bound: true,
        }
    }
}

impl GcoStereo {
    /// Its numbers, in their order.
    pub(crate) fn numbers(&self) -> [Ranged; 8]
        ensures { result ≡ stereo_numbers self.now }
    {
        [
            between(self.labels, 1, LABEL_LIMIT),
            between(self.cap, 0, CAP_LIMIT),
            between(self.smooth, 0, 2),
            between(self.trunc, 1, TRUNC_LIMIT),
            between(self.weight, 0, WEIGHT_LIMIT),
            between(self.neighbours, 0, 1),
            between(self.moves, 0, 1),
            between(self.cycles, 0, CYCLE_LIMIT),
        ]
    }

    /// What they name, where each is in its range.
    pub(crate) fn options(&self) -> StereoOptions
        ensures { result ≡ stereo_options self.now }
    {
        StereoOptions {
            smooth: shape(self.smooth),
            trunc: self.trunc,
            weight: self.weight,
            neighbours: neighbours(self.neighbours),
            moves: moves(self.moves),
            cycles: self.cycles,
            labels: self.labels,
            cap: self.cap,
            bound: true,
        }
    }
}

impl GcoSegment {
    /// Its numbers, in their order.
    pub(crate) fn numbers(&self) -> [Ranged; 7]
        ensures { result ≡ segment_numbers self.now }
    {
        [
            between(self.low, 0, MAXVAL_LIMIT),
            between(self.high, 0, MAXVAL_LIMIT),
            between(self.strong, 0, WEIGHT_LIMIT),
            between(self.weak, 0, WEIGHT_LIMIT),
            between(self.edge, 0, MAXVAL_LIMIT),
            between(self.neighbours, 0, 1),
            between(self.cycles, 0, CYCLE_LIMIT),
        ]
    }

    /// What they name, where each is in its range.
    pub(crate) fn options(&self) -> SegmentOptions
        ensures { result ≡ segment_options self.now }
    {
        SegmentOptions {
            low: self.low,
            high: self.high,
            strong: self.strong,
            weak: self.weak,
            edge: self.edge,
            neighbours: neighbours(self.neighbours),
            cycles: self.cycles,
        }
    }
}

fn shape(number: u32) -> Shape
    ensures { result ≡ shape_numbered number }
{
    match number {
        0 => Shape::Potts,
        1 => Shape::Linear,
        _ => Shape::Quadratic,
    }
}

fn neighbours(number: u32) -> Neighbours
    ensures { result ≡ neighbours_numbered number }
{
    if number == 0 {
        Neighbours::Four
    } else {
        Neighbours::Eight
    }
}

fn moves(number: u32) -> Moves
    ensures { result ≡ moves_numbered number }
{
    if number == 0 {
        Moves::Expansion
    } else {
        Moves::Swap
    }
}

fn label_cost(number: u32) -> Option<u32>
    ensures { result ≡ cost_numbered number }
{
    if number == 0 { None } else { Some(number) }
}
