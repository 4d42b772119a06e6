//! Why a net was not cut.
use thiserror::Error;

/// Why a net was not cut.
#[derive(Clone, Copy, Debug, PartialEq, Eq, Error)]
pub enum SolveError {
    /// Memory was refused.
    #[error("out of memory")]
    OutOfMemory,
    /// The system refused to start a worker.
    #[error("a worker could not be started")]
    Workers,
    /// An option is out of its limits.
    #[error("an option is out of its limits")]
    BadOptions,
}
