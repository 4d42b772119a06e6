//! Work that is done in parts: who has threads does them side by side.
ghost use Rattle.std.specs.Prelude.{◌≡◌, ◌<◌, ℕ, IfOk, slice_index_or, vec_len};

use std::alloc::{AllocError, Global};

/// What does the parts of a piece of work: `can_do` is what it asks of its caller.
pub trait Fork: Drop {
    ghost can_do: { Self → Type 0 };

    /// Does so many parts of a piece of work, in any order or side by side, and answers what each
    /// did. It refuses only where memory runs out.
    fn do_parts(
        &self,
        alloc: Global,
        count: usize,
        work: &(dyn Fn(usize) -> Result<Vec<u8>, AllocError> + Sync),
    ) -> Result<Vec<Result<Vec<u8>, AllocError>>, AllocError>
        requires able { can_do self.now }
        requires work { (i : ℕ) → i < count → pre work.now i }
        ensures count { IfOk result (λ parts. vec_len parts ≡ count) }
        ensures each { IfOk result (λ parts. (i : ℕ) (d : _) → i < count →
            post work.now i (slice_index_or parts.items i d)) };
}

/// One part after another, on the thread of the caller.
#[derive(Clone, Copy, Debug)]
pub struct InOrder;

/// Does so many parts one after another, and answers what each did.
fn do_parts_in_order(
    alloc: Global,
    count: usize,
    work: &(dyn Fn(usize) -> Result<Vec<u8>, AllocError> + Sync),
) -> Result<Vec<Result<Vec<u8>, AllocError>>, AllocError>
    requires work { (i : ℕ) → i < count → pre work.now i }
    ensures count { IfOk result (λ parts. vec_len parts ≡ count) }
    ensures each { IfOk result (λ parts. (i : ℕ) (d : _) → i < count →
        post work.now i (slice_index_or parts.items i d)) }
{
    let mut parts = Vec::with_capacity(alloc, count)?;
    for part in 0..count {
        parts.push(work(part))?;
    }
    Ok(parts)
}

impl Fork for InOrder {
    ghost can_do = { λ _. Unit {0} };

    fn do_parts(
        &self,
        alloc: Global,
        count: usize,
        work: &(dyn Fn(usize) -> Result<Vec<u8>, AllocError> + Sync),
    ) -> Result<Vec<Result<Vec<u8>, AllocError>>, AllocError> {
        do_parts_in_order(alloc, count, work)
    }
}
