//! The steps of the method.

use crate::direction::Direction;

/// One step of the method. A node is named by its number in the net, a way by the block that puts
/// messages into it and the block that takes them out.
#[derive(Clone, Copy)]
pub enum Event {
    /// Excess goes along a direction within a block: as much as the node has and the direction
    /// carries.
    PushInner { direction: Direction },
    /// Excess goes to the sink: as much as the node has and can still give the sink.
    PushSink { node: u32 },
    /// A node gets the highest label that its residual directions allow.
    Relabel { node: u32 },
    /// Excess leaves for another block, in a parcel.
    Send { direction: Direction },
    /// The parcel at the front of a way is taken.
    Accept { from: u32, to: u32 },
    /// The parcel at the front of a way is sent back.
    Refuse { from: u32, to: u32 },
    /// The answer at the front of a way ends its direction's flight.
    Settle { from: u32, to: u32 },
    /// Where no message is on the way, each label becomes the exact distance to the sink.
    RaiseAll,
}
