//! Why a run ends with another status than 0.
ghost use Rattle.std.specs.Prelude.{◌≡◌};
ghost use Rattle.program_texts.specs.declared.refusal.Refusal.TheVariants.{Fault as Faulty};

use crate::fault::Fault;

/// Why a run ends with another status than 0.
#[derive(Drop)]
pub enum Refusal {
    /// Status 1: the run was refused.
    Fault(Fault),
    /// Status 2: the words were refused, with this text.
    Words(String),
}

impl From<Fault> for Refusal {
    ghost from_gives = { λ fault refusal. refusal ≡ Faulty fault };

    fn from(fault: Fault) -> Refusal {
        Refusal::Fault(fault)
    }
}
