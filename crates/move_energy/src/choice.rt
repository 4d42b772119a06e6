//! What is known of a variable before an energy is built.
ghost use Rattle.std.specs.Prelude.{◌≡◌, ◌↔◌, IsTrue};
ghost use Rattle.move_energy.specs.declared.choice.Choice.TheVariants.{Open};
ghost use Rattle.move_energy.specs.Choices.{bit_of};

/// What is known of the variable of a site before the energy of a move is built: nothing, or its
/// value.
#[derive(Clone, Copy, Debug, PartialEq, Eq)]
#[repr(u8)]
pub enum Choice {
    Open,
    Zero,
    One,
}

impl Choice {
    /// Whether nothing is known.
    pub fn is_open(self) -> bool
        ensures { IsTrue result ↔ (self ≡ Open) }
    {
        match self {
            Choice::Open => true,
            Choice::Zero | Choice::One => false,
        }
    }

    /// The value: what was decided, and else the one given.
    pub fn bit(self, given: bool) -> bool
        ensures { result ≡ bit_of self given }
    {
        match self {
            Choice::Open => given,
            Choice::Zero => false,
            Choice::One => true,
        }
    }
}
