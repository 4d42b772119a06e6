//! A labelling problem, and the run that it asks for.
use label_energies::Moves;
use label_field::{Labelling, Pairs};

/// A problem of labels, and the run that is to better its labelling.
#[derive(Drop)]
pub struct LabelProblem {
    /// How many sites there are.
    pub sites: u32,
    /// How many labels there are, at least 1.
    pub labels: u32,
    /// The cost of each label at each site, site by site, each from 0 to `DATA_LIMIT`.
    pub data: Vec<u32>,
    /// The cost of each label beside each, row after row by the label of a pair's first site, each
    /// from 0 to `SMOOTH_LIMIT`.
    pub smooth: Vec<i64>,
    /// The pairs of sites that pay the smooth cost, times their weight.
    pub pairs: Pairs,
    /// The labelling from which the run starts.
    pub start: Labelling,
    /// The moves of the run.
    pub moves: Moves,
    /// The most cycles of the run, at most `CYCLE_LIMIT`.
    pub cycles: u32,
    /// What each label costs by itself, wherever some site has it: one for each label, each from 0
    /// to `LABEL_COST_LIMIT`, where the file names them.
    pub label_costs: Option<Vec<i64>>,
}
