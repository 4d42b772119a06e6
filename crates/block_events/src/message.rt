//! What one block tells another.

use crate::direction::Direction;

/// What one block tells another about a border direction. A parcel goes along its direction, an
/// answer against it.
#[derive(Clone, Copy)]
pub enum Message {
    /// An amount is offered, by a node with this label.
    Parcel {
        direction: Direction,
        amount: u64,
        label: u32,
    },
    /// The amount was taken.
    Accepted {
        direction: Direction,
        amount: u64,
    },
    /// The amount was not taken, since the node that it went to has the label `told`, and not one
    /// below the parcel's label.
    Refused {
        direction: Direction,
        amount: u64,
        label: u32,
        told: u32,
    },
}
