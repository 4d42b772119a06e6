//! Why no bound was found.
use thiserror::Error;

/// Why no bound was found.
#[derive(Clone, Copy, Debug, PartialEq, Eq, Error)]
pub enum BoundError {
    /// The search takes so many bytes, more than are allowed.
    #[error("the search for a bound takes {0} bytes, more than are allowed")]
    TooLarge(u64),
    /// Memory was refused.
    #[error("out of memory")]
    OutOfMemory,
}
