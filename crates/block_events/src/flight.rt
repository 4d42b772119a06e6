//! Parcels that are out.

/// The parcel that is out on a border direction: sent, and its answer not yet taken.
#[derive(Clone, Copy, PartialEq, Eq, Debug)]
pub struct Flight {
    /// What it carries, at least 1.
    pub amount: u64,
    /// The label that the node it left had then.
    pub label: u32,
}
