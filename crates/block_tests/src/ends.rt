//! A block's ends of its ways, that hold at most one letter each way.
ghost use Rattle.block_tests.specs.Ends.{seen_of};

use parcel::{Letter, Ways};

/// Ends that have room for one letter, and to which at most one comes. They hold what was put and
/// what was taken, each with the block that was asked.
#[derive(Drop)]
pub struct OneLetter {
    /// The letter that came.
    pub came: Option<Letter>,
    /// The letter that was put, and the block that it is for.
    pub put: Option<Letter>,
    pub put_for: u32,
    /// The letter that was taken, and the block that it is from.
    pub taken: Option<Letter>,
    pub taken_from: u32,
}

impl OneLetter {
    /// Ends on which this letter has come.
    pub fn with(came: Option<Letter>) -> OneLetter {
        OneLetter {
            came,
            put: None,
            put_for: 0,
            taken: None,
            taken_from: 0,
        }
    }
}

impl Ways for OneLetter {
    type Identity = ();

    ghost identity = { λ _. tt };

    ghost seen = { λ e. seen_of e.came e.put_for e.put e.taken_from e.taken };

    fn room(&mut self, _to: u32) -> bool {
        match self.put {
            None => true,
            Some(_) => false,
        }
    }

    #[tactic(auto, using(crate::proofs::LetterEnds::is_put))]
    fn put(&mut self, to: u32, letter: Letter) {
        self.put = Some(letter);
        self.put_for = to;
    }

    fn front(&mut self, _from: u32) -> Option<Letter> {
        match self.taken {
            None => self.came,
            Some(_) => None,
        }
    }

    #[tactic(auto, using(crate::proofs::LetterEnds::is_take))]
    fn take(&mut self, from: u32) {
        self.taken = self.came;
        self.taken_from = from;
    }
}
