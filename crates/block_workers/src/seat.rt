//! A block with its ends, and its turns.
ghost use Rattle.std.specs.Prelude.{◌≡◌, ◌≤◌, ◌+◌};
ghost use Rattle.flow_network.specs.Limits.{node_limit};
ghost use Rattle.block_net.specs.Views.{count};

use crate::turn_ends::turn_with;
use crate::{Ends, Job, TurnBook};
use block_discharge::Block;
use std::sync::{Mutex, Wait};
use worker_options::Gate;

/// How many events a turn may do beside as many as the block has nodes.
const MORE_EVENTS: u32 = 16;

/// A block at its worker's: its number, its ends of the rings to the other blocks, how many nodes
/// it has, and how far it has come in the round.
#[derive(Drop)]
pub struct Seat {
    pub(crate) number: u32,
    pub(crate) block: Block,
    pub(crate) ends: Ends,
    pub(crate) nodes: u32,
    pub(crate) turn: u32,
    pub(crate) did_event: bool,
    pub(crate) has_ended: bool,
    ghost small: { nodes ≤ node_limit },
    ghost whole: { nodes ≡ count block },
}

impl Seat {
    ghost use Rattle.std.specs.Prelude.{◌<◌, ◌^◌};
    ghost use Rattle.block_discharge.specs.Steps.{IsSure, Step};
    ghost use Rattle.block_workers.specs.Ends.{ports};
    ghost use Rattle.block_workers.specs.Seeing.{ways_of_ports};
    ghost use Rattle.block_workers.specs.Turns.{IsNewSeat, Went, WentOn, HasWorkedTurns, most};

    /// A block before its first turn. It has `nodes` nodes.
    pub fn new(number: u32, block: Block, nodes: u32, ends: Ends) -> Seat
        requires nodes { nodes ≡ count block }
        requires small { nodes ≤ node_limit }
        ensures { IsNewSeat number block ends result }
    {
        Seat {
            number,
            block,
            ends,
            nodes,
            turn: 0,
            did_event: false,
            has_ended: false,
        }
    }

    /// The block, and its ends of the rings to the other blocks.
    pub fn into_parts(self) -> (Block, Ends)
        ensures block { result.0 ≡ self.block }
        ensures ends { result.1 ≡ self.ends }
    {
        (self.block, self.ends)
    }

    /// One turn: at most as many events as the block has nodes, plus 16, and at least one where one
    /// is sure.
    fn do_turn(&mut self) -> u32
        ensures went { Went result self.old self.new }
        ensures few { result ≤ most self.old }
        ensures some { (e : Step)
            → IsSure self.old.block (ways_of_ports (ports self.old.ends)) e → 0 < result }
        ensures turn { self.new.turn ≡ self.old.turn }
    {
        let count = turn_with(&mut self.block, &mut self.ends, self.nodes + MORE_EVENTS);
        self.did_event = count > 0;
        count
    }

    /// The next turn, where it may be done; where not, the block's work in the round has ended.
    fn turn_if(&mut self, may: bool) -> u32
        ensures went { Went result self.old self.new }
        ensures few { result ≤ most self.old }
        ensures turn { self.new.turn ≡ self.old.turn }
    {
        if !may {
            self.has_ended = true;
            self.did_event = false;
            return 0;
        }
        self.do_turn()
    }

    /// Turn 0, which is free. Answers whether some block is marked busy after it, which no clause
    /// says.
    pub(crate) fn begin<J: Job, R: Wait, G: Gate>(
        &mut self,
        rt: &R,
        book: &Mutex<TurnBook<J>>,
        gate: &G,
    ) -> bool
        ensures worked { HasWorkedTurns 1 self.old self.new }
        ensures turn { self.new.turn ≡ self.old.turn }
    {
        gate.pass(self.number, 0);
        self.do_turn();
        book.lock(rt).mark(self.number, !self.did_event)
    }

    /// The turn after the last one, for which a turn was drawn; where the gate says no it does
    /// nothing, and the block has ended. Answers whether some block is marked busy after it. No
    /// clause says what it answers, nor what the gate's no ends.
    pub(crate) fn go_on<J: Job, R: Wait, G: Gate>(
        &mut self,
        rt: &R,
        book: &Mutex<TurnBook<J>>,
        gate: &G,
    ) -> bool
        requires { self.old.turn + 1 < 2 ^ 32 }
        ensures went { WentOn self.old self.new }
        ensures turn { self.new.turn ≡ self.old.turn + 1 }
    {
        self.turn += 1;
        let may = gate.pass(self.number, self.turn);
        self.turn_if(may);
        book.lock(rt).mark(self.number, !self.did_event)
    }

    /// Whether the block wants a turn: it has not ended, and its last turn did an event or a letter
    /// is in front of one of its rings. That it answers so is shown by tests.
    pub(crate) fn wants(&mut self) -> bool
        ensures went { Went 0 self.old self.new }
        ensures turn { self.new.turn ≡ self.old.turn }
    {
        if self.has_ended {
            return false;
        }
        if self.did_event {
            return true;
        }
        self.ends.has_letter()
    }
}
