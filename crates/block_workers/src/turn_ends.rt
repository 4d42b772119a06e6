//! A block's ends in the course of one turn.
ghost use Rattle.std.specs.Prelude.{◌≡◌, ◌<◌, ◌≤◌, true};
ghost use Rattle.block_net.specs.Views.{count};
ghost use Rattle.block_discharge.specs.Steps.{DoesMany, IsSure, Step, turn_view};
ghost use Rattle.block_workers.specs.Ends.{ports};
ghost use Rattle.block_workers.specs.Seeing.{AreSame, ways_of_ports};

use crate::Ends;
use block_discharge::{Block, Letter, Ways, turn};
use std::marker::{Brand, Model, PhantomData};

/// The ports with which a turn begins.
trait Start {
    ghost use Rattle.std.specs.Prelude.{List};
    ghost use Rattle.block_workers.specs.declared.port.Port.{Port};

    ghost start: { List Port };
}

impl Start for Brand {
    ghost use Rattle.std.specs.Prelude.{[]};

    ghost start = { [] };
}

/// Ends of which each port is the one with which the turn began.
#[derive(Drop)]
struct TurnEnds<N: Start> {
    ends: Ends,
    of: PhantomData<N>,
}

impl<N: Start> Model for TurnEnds<N> {
    ghost use Rattle.std.specs.Prelude.{List};
    ghost use Rattle.block_workers.specs.declared.port.Port.{Port};
    ghost use Rattle.block_workers.specs.Ends.{ports};
    ghost use Rattle.block_workers.specs.Seeing.{AreSame};

    ghost Value = { List Port };

    ghost view = { λ ways. ports ways.ends };

    ghost invariant = { λ ways. AreSame N.start (ports ways.ends) };
}

impl<N: Start> Ways for TurnEnds<N> {
    type Identity = bool;

    ghost identity = { λ ways. true };

    ghost seen = { λ ways. ways_of_ports ways };

    fn room(&mut self, to: u32) -> bool {
        self.ends.room(to)
    }

    fn put(&mut self, to: u32, letter: Letter) {
        self.ends.put(to, letter);
    }

    fn front(&mut self, from: u32) -> Option<Letter> {
        self.ends.front(from)
    }

    fn take(&mut self, from: u32) {
        self.ends.take(from);
    }
}

/// A turn that begins with these ports.
fn turn_from<N: Start>(block: &mut Block, ends: Ends, limit: u32) -> (Ends, u32)
    requires { N.start ≡ ports ends }
    ensures few { result.1 ≤ limit }
    ensures does { DoesMany
        (turn_view block.old (ways_of_ports (ports ends))) result.1
        (turn_view block.new (ways_of_ports (ports result.0))) }
    ensures some { 0 < limit → (e : Step)
        → IsSure block.old (ways_of_ports (ports ends)) e → 0 < result.1 }
    ensures same { AreSame (ports ends) (ports result.0) }
    ensures nodes { count block.new ≡ count block.old }
{
    let mut ways = TurnEnds::<N> {
        ends,
        of: PhantomData,
    };
    let count = turn(block, &mut ways, limit);
    (ways.ends, count)
}

/// A turn of a block with its ends: a list of the block's own enabled events, at most `limit`, and
/// at least one where one is sure. Answers how many. The block has as many nodes as before. Takes
/// no memory.
pub(crate) fn turn_with(block: &mut Block, ends: &mut Ends, limit: u32) -> u32
    ensures few { result ≤ limit }
    ensures does { DoesMany
        (turn_view block.old (ways_of_ports (ports ends.old))) result
        (turn_view block.new (ways_of_ports (ports ends.new))) }
    ensures some { 0 < limit → (e : Step)
        → IsSure block.old (ways_of_ports (ports ends.old)) e → 0 < result }
    ensures same { AreSame (ports ends.old) (ports ends.new) }
    ensures nodes { count block.new ≡ count block.old }
{
    let (back, count) = turn_from::<Brand>(block, ends.take_all(), limit);
    *ends = back;
    count
}
