//! Where a run was left, for a later one that goes on from there.

/// Where a run stands between two of its moves: all is 0 before the first.
#[derive(Clone, Copy, Debug, PartialEq, Eq)]
pub struct Mark {
    /// How many whole cycles were done.
    pub cycles: u32,
    /// The place of the next move in its cycle, from 0.
    pub place: u32,
    /// The place of the move that changed a label last, in this cycle or before it; the number of
    /// the moves of a cycle where none did.
    pub last: u32,
    /// Whether a move of this cycle changed a label.
    pub changed: bool,
    /// The number of the last expansion that was noted; they are numbered from 1.
    pub noted: u32,
}

/// What a run leaves between two of its moves: where it stands, and which sites changed since each
/// label was expanded.
#[derive(Drop)]
pub struct Bookmark {
    pub mark: Mark,
    /// Of each site the number of the expansion that changed it last, 0 where none did.
    pub stamps: Vec<u32>,
    /// Of each label the number of its last expansion, 0 where none is remembered.
    pub made: Vec<u32>,
}
