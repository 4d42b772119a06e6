//! A block's ends of the ways to and from the other blocks.
ghost use Rattle.std.specs.Prelude.{◌≡◌, ◌<◌, ◌^◌, true, Some, is_some};
ghost use Rattle.block_events.specs.Soundness.{direction_of};
ghost use Rattle.block_events.specs.Workers.{IsFair};
ghost use Rattle.block_discharge.specs.declared.letter.Letter.{Letter};
ghost use Rattle.block_discharge.specs.Seen.{WaysView, IsLook, IsPut, IsTake};

use crate::Letter;

/// A block's ends of the ways to and from the other blocks, which it names by their numbers. None
/// of its calls takes memory.
pub trait Ways {
    /// What tells these ends from all others, for clauses alone.
    type Identity;

    /// No call changes it.
    ghost identity: { Self → Self.Identity };

    /// What the block has put and taken since the beginning, and what it has seen of room and
    /// fronts.
    ghost seen: { Self → WaysView };

    /// Whether there is room for a message to another block.
    fn room(&mut self, to: u32) -> bool
        ensures identity { identity self.new ≡ identity self.old }
        ensures look { IsLook (seen self.old) (seen self.new) }
        ensures value { result ≡ (seen self.new).room to };

    /// Puts a message for another block, where room was seen. Amounts and labels are at least 1, a
    /// label told is at least the parcel's, and the arc's place is a `u32`.
    fn put(&mut self, to: u32, letter: Letter)
        requires room { (seen self.old).room to ≡ true }
        requires fair { IsFair letter.message }
        requires arc { (direction_of letter.message).arc < 2 ^ 32 }
        ensures identity { identity self.new ≡ identity self.old }
        ensures put { IsPut to letter.message (seen self.old) (seen self.new) };

    /// The message from another block that is to be taken next, where one has come.
    fn front(&mut self, from: u32) -> Option<Letter>
        ensures identity { identity self.new ≡ identity self.old }
        ensures look { IsLook (seen self.old) (seen self.new) }
        ensures value { result ≡ (seen self.new).front from };

    /// Takes the message that was seen in front.
    fn take(&mut self, from: u32)
        requires { is_some ((seen self.old).front from) ≡ true }
        ensures identity { identity self.new ≡ identity self.old }
        ensures take { (l : Letter) → (seen self.old).front from ≡ Some l
            → IsTake from l.message (seen self.old) (seen self.new) };
}
