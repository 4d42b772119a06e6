//! Gates that workers ask before each turn.
ghost use Rattle.std.specs.Prelude.{◌≡◌, true};

use worker_options::Gate;

/// The gate that lets each block do each of its turns.
#[derive(Clone, Copy, Debug)]
pub struct Open;

impl Gate for Open {
    fn pass(&self, _block: u32, _turn: u32) -> bool
        ensures { result ≡ true }
    {
        true
    }
}

/// A gate that is lent as a value of its trait.
#[derive(Drop)]
pub struct Lent<G> {
    pub gate: G,
}

impl<'a> Gate for Lent<&'a (dyn Gate + Sync)> {
    fn pass(&self, block: u32, turn: u32) -> bool {
        self.gate.pass(block, turn)
    }
}
