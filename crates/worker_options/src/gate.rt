//! What a worker asks before each turn.
/// What a worker asks before each turn of a block, while it holds no lock. What a gate answers
/// changes how long a round goes on, and never the cut that is found.
pub trait Gate: Sync {
    /// Whether the block may do this turn. The turns of a block in a round are numbered from 0. At
    /// turn 0 the answer is not used; from turn 1 on `false` ends the block's work in the round.
    fn pass(&self, block: u32, turn: u32) -> bool;
}
