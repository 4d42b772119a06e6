//! What a block holds of a direction.

use crate::flight::Flight;

/// What the block of a direction's near end holds of the direction.
#[derive(Clone, Copy)]
pub struct Lane {
    /// What it can still carry.
    pub residual: u64,
    /// At a border, the label that is known of the far end.
    pub known: u32,
    /// At a border, the parcel that is out.
    pub flight: Option<Flight>,
}
