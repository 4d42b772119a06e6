//! The numbers that costs may be handed over in.
ghost use Rattle.std.specs.Prelude.{◌≡◌, ℤ, map, IfOk};

use std::alloc::{AllocError, Global};

/// A number of 32 or of 64 bits that costs something.
pub trait Number: Copy + Sync {
    /// What it is.
    ghost value: { Self → ℤ };

    /// The same in 64 bits.
    fn wide(self) -> i64
        ensures { result ≡ value self };
}

impl Number for i32 {
    ghost value = { λ number. number };

    fn wide(self) -> i64 {
        i64::from(self)
    }
}

impl Number for i64 {
    ghost value = { λ number. number };

    fn wide(self) -> i64 {
        self
    }
}

/// A copy of 64 bits.
pub fn wide_copy<N: Number>(alloc: Global, given: &[N]) -> Result<Vec<i64>, AllocError>
    ensures { IfOk result (λ wide. wide.items ≡ map N.value given.now) }
{
    given.iter().map(|number| number.wide()).collect(alloc)
}
