//! Why an energy refuses an addition.
ghost use Rattle.std.specs.Prelude.{◌≡◌};
ghost use Rattle.pseudo_bool.specs.declared.error.EnergyError.TheVariants.{OutOfMemory};

use std::alloc::{AllocError, AllocFailed};
use thiserror::Error;

/// Why an energy refused an addition. It is then as it was.
#[derive(Clone, Copy, Debug, PartialEq, Eq, Error)]
pub enum EnergyError {
    /// A term names a variable that the energy does not have, or a further variable is beyond the
    /// limit.
    #[error("no such variable")]
    NoSuchVariable,
    /// Two of a term's variables are the same.
    #[error("a term names a variable twice")]
    SameVariable,
    /// A number of a table, a constant or the sum of the constants is out of its range.
    #[error("a value is out of range")]
    ValueRange,
    /// The energy has as many terms as it may have.
    #[error("too many terms")]
    TooManyTerms,
    /// Memory was refused.
    #[error("out of memory")]
    OutOfMemory,
}

impl<T: Drop> From<AllocFailed<T>> for EnergyError {
    ghost from_gives = { λ _ e. e ≡ OutOfMemory };

    fn from(_failed: AllocFailed<T>) -> EnergyError {
        EnergyError::OutOfMemory
    }
}

impl From<AllocError> for EnergyError {
    ghost from_gives = { λ _ e. e ≡ OutOfMemory };

    fn from(_failed: AllocError) -> EnergyError {
        EnergyError::OutOfMemory
    }
}
