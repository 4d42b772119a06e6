//! Energies that are regular, as a type.
ghost use Rattle.std.specs.Prelude.{◌≡◌};
ghost use Rattle.regular.specs.Regularity.{IsRegular};

use pseudo_bool::Energy;
use std::marker::Model;

/// An energy each of whose terms is regular. Contracts see the energy.
#[derive(Drop)]
pub struct Regular<'a> {
    energy: &'a Energy,
}

impl<'a> Model for Regular<'a> {
    ghost use Rattle.pseudo_bool.specs.Energies as meaning;
    ghost use Rattle.regular.specs.Regularity.{IsRegular};

    ghost Value = { meaning.Energy };

    ghost view = { λ r. r.energy.now };

    ghost invariant = { λ r. IsRegular r.energy.now };
}

impl<'a> Regular<'a> {
    /// An energy whose terms are regular.
    pub fn new(energy: &'a Energy) -> Regular<'a>
        requires { IsRegular energy.now }
        ensures { result ≡ energy.now }
    {
        Regular { energy }
    }

    /// The energy.
    pub fn energy(&self) -> &'a Energy
        ensures value { result.now ≡ self.now }
        ensures regular { IsRegular result.now }
    {
        self.energy
    }
}
