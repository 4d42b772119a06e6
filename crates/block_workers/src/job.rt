//! The two ledgers with which the turns of a round are counted.
use std::marker::PhantomData;
use std::sync::ledger::Ledger;

/// The two ledgers of a book of turns.
pub trait Job {
    /// Its total is how many turns the book began with.
    type Budget: Ledger + Send + Sync;

    /// Its total is how many turns were drawn.
    type Drawn: Ledger + Send + Sync;
}

/// The job of two ledgers.
pub struct Ledgers<B: Ledger, D: Ledger> {
    budget: PhantomData<B>,
    drawn: PhantomData<D>,
}

impl<B: Ledger + Send + Sync, D: Ledger + Send + Sync> Job for Ledgers<B, D> {
    type Budget = B;

    type Drawn = D;
}
