//! What an image command reports.
use moves::Bound;

/// What the labels of the picture that was made cost.
#[derive(Clone, Copy, Debug, PartialEq, Eq)]
pub struct Report {
    /// The energy: the sum of the three parts.
    pub energy: i64,
    /// What the labels cost the pixels.
    pub data_part: i64,
    /// What the labels cost the pairs of pixels.
    pub smooth_part: i64,
    /// What the labels that some pixel has cost by themselves.
    pub label_part: i64,
    /// How near the picture is to the least energy, where that was asked for: `vmin` times its
    /// energy is at most twice `vmax` times that of any labelling. None where the run does not
    /// tell: its moves were swaps, its last cycle changed something, its smooth costs are no
    /// metric, or its labels cost something by themselves.
    pub bound: Option<Bound>,
}
