//! The seats of a round, and lists for the hands that they are dealt to.
use crate::pile::Pile;
use block_workers::Seat;
use std::alloc::Global;

/// The seats of a round, and lists for the hands that they are dealt to. Between two rounds all of
/// it serves for its room alone.
#[derive(Drop)]
pub struct Deck {
    /// The seats, in the order of their blocks.
    pub seats: Vec<Seat>,
    /// Room for hands.
    pub hands: Vec<Vec<Seat>>,
    /// The lists of earlier hands.
    pub pile: Pile<Seat>,
}

impl Deck {
    /// No seat, and no list.
    pub(crate) fn none(alloc: Global) -> Deck {
        Deck {
            seats: Vec::new(alloc),
            hands: Vec::new(alloc),
            pile: Pile::new(alloc),
        }
    }
}
