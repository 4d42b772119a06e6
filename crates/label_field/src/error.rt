//! Why a call on a labelling or a list of pairs was refused.
ghost use Rattle.std.specs.Prelude.{◌≡◌, alloc_error};
ghost use Rattle.label_field.specs.declared.error.LabelFieldError.TheVariants.{OutOfMemory};

use std::alloc::{AllocError, AllocFailed};
use thiserror::Error;

/// Why a call was refused. A refused call changes nothing. Sites and labels are numbered from 0.
#[derive(Debug, Drop, Error)]
pub enum LabelFieldError {
    /// A site is not below the number of sites.
    #[error("there is no such site")]
    NoSuchSite,
    /// A label is not below the number of labels.
    #[error("there is no such label")]
    NoSuchLabel,
    /// The two sites of a pair are one.
    #[error("the two sites of a pair are the same")]
    SamePair,
    /// The list has `PAIR_LIMIT` pairs already.
    #[error("there are too many pairs")]
    TooManyPairs,
    /// The weight of a pair is not from 0 to `WEIGHT_LIMIT`.
    #[error("the weight of a pair is out of range")]
    WeightRange,
    /// Out of memory: a growth was refused.
    #[error(transparent)]
    OutOfMemory(AllocError),
}

impl<T: Drop> From<AllocFailed<T>> for LabelFieldError {
    ghost from_gives = { λ _ e. e ≡ OutOfMemory alloc_error };

    fn from(_failed: AllocFailed<T>) -> LabelFieldError {
        LabelFieldError::OutOfMemory(AllocError)
    }
}

impl From<AllocError> for LabelFieldError {
    ghost from_gives = { λ _ e. e ≡ OutOfMemory alloc_error };

    fn from(error: AllocError) -> LabelFieldError {
        LabelFieldError::OutOfMemory(error)
    }
}
