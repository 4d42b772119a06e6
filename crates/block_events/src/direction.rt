//! The directions of an arc.

/// One of the two directions of an arc: from its tail to its head, or back.
#[derive(Clone, Copy, PartialEq, Eq, Debug)]
pub struct Direction {
    /// The arc's place in the net's list of arcs.
    pub arc: usize,
    /// Whether it leads from the arc's head to its tail.
    pub back: bool,
}
