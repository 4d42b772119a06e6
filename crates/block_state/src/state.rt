//! Sound states: a net in blocks with the messages between them.
ghost use Rattle.std.specs.Prelude.{IfOk, length, slice_get, Some, IfSome, IfNone, [], ◌∷◌, drop};
ghost use Rattle.std.specs.Prelude.{◌≡◌, ◌↔◌, ◌<◌, ◌≤◌, ◌+◌, IsTrue};
ghost use Rattle.flow_network.specs.Cut.{nodes, IsNet};
ghost use Rattle.block_events.specs.declared.message.Message.TheVariants.{Parcel, Accepted};
ghost use Rattle.block_events.specs.declared.message.Message.TheVariants.{Refused};
ghost use Rattle.block_events.specs.Directions.{IsDirection, far};
ghost use Rattle.block_events.specs.States.{IsWay, way_at, excess_of, label_of, room_of};
ghost use Rattle.block_events.specs.States.{residual_of};
ghost use Rattle.block_events.specs.States.{known_of, flight_of};
ghost use Rattle.block_events.specs.Reach.{AreExact};
ghost use Rattle.block_events.specs.Effects.{opening_blocks};
ghost use Rattle.block_events.specs.Soundness.{IsSound, opening_state};
ghost use Rattle.block_events.specs.Events.{Happens, IsActive, IsQuiet, IsEnabled, effect};
ghost use Rattle.block_net.specs.Limits.{block_limit};
ghost use Rattle.block_split.specs.Split.{CanSplit, whole_of};
ghost use Rattle.net_in_blocks.specs.Views.{IsLaid};
ghost use Rattle.block_state.specs.Calls.{HappensIfEnabled};
ghost use Rattle.block_state.specs.AllWays.{IsHeld};
ghost use Rattle.block_state.specs.Parts.{IsIn};
ghost use Rattle.block_state.specs.Pieces.{state_in};

use crate::all_ways::AllWays;
use crate::pieces::Pieces;
use crate::rooms::Rooms;
use block_events::{Direction, Event, Flight, Message};
use block_split::Parts;
use flow_network::Net;
use net_in_blocks::{Blocks, copy_of};
use std::alloc::{AllocError, Global};
use std::marker::Model;
use std::thread::Threads;

/// A net in blocks with the messages between them: a sound state of the core.
#[derive(Drop)]
pub struct State {
    blocks: Blocks,
    ways: AllWays,
    got: u64,
}

impl Model for State {
    ghost use Rattle.block_events.specs.States as core;
    ghost use Rattle.block_events.specs.Effects.{state_of};
    ghost use Rattle.block_state.specs.AllWays.{IsHeld};

    ghost Value = { core.State };

    ghost view = { λ s. state_of s.blocks s.ways.messages s.got };

    ghost invariant = { λ s. IsHeld s.ways.rooms (state_of s.blocks s.ways.messages s.got) };
}

impl State {
    /// The opening of a net in so many blocks, at least one and at most `BLOCK_LIMIT`, where it has
    /// at most `ARC_LIMIT` arcs. All room for messages is made here; the only error is that memory
    /// runs out.
    pub fn open(alloc: Global, net: &Net, blocks: usize) -> Result<State, AllocError>
        requires { CanSplit net.now blocks }
        ensures { IfOk result (λ state. state ≡ opening_state net.now blocks) }
    {
        let net = copy_of(alloc, net)?;
        State::of_net(alloc, net, blocks)
    }

    /// The state that `open` answers, of a net that it takes over in place of a copy: it needs 16
    /// bytes a node and 16 an arc less. Refused for the same reason.
    pub fn of_net(alloc: Global, net: Net, blocks: usize) -> Result<State, AllocError>
        requires { CanSplit net blocks }
        ensures { IfOk result (λ state. state ≡ opening_state net blocks) }
    {
        let blocks = Blocks::open(alloc, net, blocks)?;
        let state = State::of_blocks(alloc, blocks)?;
        Ok(state)
    }

    /// The state that `open` answers, with its blocks made side by side by at most so many threads
    /// where the net is large. A thread that the system does not start leaves its blocks to the one
    /// that asked for it. Refused for the same reason.
    pub fn open_by<R: Threads + Sync>(
        rt: &R,
        alloc: Global,
        net: &Net,
        blocks: usize,
        threads: usize,
    ) -> Result<State, AllocError>
        requires split { CanSplit net.now blocks }
        requires threads { 0 < threads }
        ensures { IfOk result (λ state. state ≡ opening_state net.now blocks) }
    {
        let net = copy_of(alloc, net)?;
        State::of_net_by(rt, alloc, net, blocks, threads)
    }

    /// The state that `open_by` answers, of a net that it takes over in place of a copy.
    pub fn of_net_by<R: Threads + Sync>(
        rt: &R,
        alloc: Global,
        net: Net,
        blocks: usize,
        threads: usize,
    ) -> Result<State, AllocError>
        requires split { CanSplit net blocks }
        requires threads { 0 < threads }
        ensures { IfOk result (λ state. state ≡ opening_state net blocks) }
    {
        let blocks = Blocks::open_by(rt, alloc, net, blocks, threads)?;
        let state = State::of_blocks(alloc, blocks)?;
        Ok(state)
    }

    /// The state of blocks at the opening, with room for all messages.
    fn of_blocks(alloc: Global, blocks: Blocks) -> Result<State, AllocError>
        requires net { IsNet blocks.net }
        requires split { CanSplit blocks.net blocks.blocks }
        requires opening { blocks ≡ opening_blocks blocks.net blocks.blocks }
        ensures { IfOk result (λ state. state ≡ opening_state blocks.net blocks.blocks) }
    {
        let rooms = Rooms::count(alloc, &blocks)?;
        let ways = AllWays::open(alloc, &rooms)?;
        Ok(State {
            blocks,
            ways,
            got: 0,
        })
    }

    /// The state in its pieces, which it gives up. Takes no memory.
    pub fn into_pieces(self) -> Pieces
        ensures state { state_in result ≡ self }
        ensures laid { IsLaid (whole_of result.net result.parts) }
        ensures held { IsHeld result.ways.rooms self }
    {
        let (net, parts) = self.blocks.into_parts();
        Pieces {
            net,
            parts,
            ways: self.ways,
            got: self.got,
        }
    }

    /// The state that the pieces make. Takes no memory.
    pub(crate) fn of_pieces(pieces: Pieces) -> State
        requires laid { IsLaid (whole_of pieces.net pieces.parts) }
        requires held { IsHeld pieces.ways.rooms (state_in pieces) }
        ensures { result ≡ state_in pieces }
    {
        State {
            blocks: Blocks::of(pieces.net, pieces.parts),
            ways: pieces.ways,
            got: pieces.got,
        }
    }

    /// The net.
    pub fn net(&self) -> &Net
        ensures value { result.now ≡ self.now.net }
        ensures sound { IsSound self.now }
    {
        self.blocks.net()
    }

    /// The blocks, and where each node and each direction stands in them.
    pub fn parts(&self) -> &Parts
        ensures { IsIn self.now result.now }
    {
        self.blocks.parts()
    }

    /// How many nodes the net has.
    pub fn nodes(&self) -> usize
        ensures value { result ≡ nodes self.now.net }
        ensures sound { IsSound self.now }
    {
        self.blocks.nodes()
    }

    /// How many arcs the net has.
    pub fn arcs(&self) -> usize
        ensures { result ≡ length self.now.net.arcs }
    {
        self.blocks.arcs()
    }

    /// How many blocks the net is in.
    pub fn blocks(&self) -> usize
        ensures value { result ≡ self.now.blocks }
        ensures few { result ≤ block_limit }
        ensures sound { IsSound self.now }
    {
        self.blocks.count()
    }

    /// What a node got and did not pass on.
    pub fn excess(&self, v: usize) -> u64
        requires { v < nodes self.now.net }
        ensures { result ≡ excess_of self.now v }
    {
        self.blocks.excess(v)
    }

    /// The label of a node.
    pub fn label(&self, v: usize) -> u32
        requires { v < nodes self.now.net }
        ensures { result ≡ label_of self.now v }
    {
        self.blocks.label(v)
    }

    /// What a node can still give the sink.
    pub fn room(&self, v: usize) -> u64
        requires { v < nodes self.now.net }
        ensures { result ≡ room_of self.now v }
    {
        self.blocks.room(v)
    }

    /// What a direction can still carry.
    pub fn residual(&self, direction: Direction) -> u64
        requires { IsDirection self.now.net direction }
        ensures { result ≡ residual_of self.now direction }
    {
        self.blocks.lane(direction).residual
    }

    /// The label that is known of the far end of a direction to another block.
    pub fn known(&self, direction: Direction) -> u32
        requires { IsDirection self.now.net direction }
        ensures { result ≡ known_of self.now direction }
    {
        self.blocks.lane(direction).known
    }

    /// The parcel that is out on a direction to another block.
    pub fn flight(&self, direction: Direction) -> Option<Flight>
        requires { IsDirection self.now.net direction }
        ensures { result ≡ flight_of self.now direction }
    {
        self.blocks.lane(direction).flight
    }

    /// What the sink got.
    pub fn got(&self) -> u64
        ensures { result ≡ self.now.got }
    {
        self.got
    }

    ghost use Rattle.block_events.specs.declared.event.Event.TheVariants.{PushInner, PushSink};
    ghost use Rattle.block_events.specs.declared.event.Event.TheVariants.{Relabel};
    ghost use Rattle.block_events.specs.declared.event.Event.TheVariants.{Send, Accept, Refuse};
    ghost use Rattle.block_events.specs.declared.event.Event.TheVariants.{Settle};
    ghost use Rattle.block_events.specs.declared.event.Event.TheVariants.{RaiseAll};

    /// Whether a node has excess and is not cut off.
    fn is_active(&self, v: usize) -> bool
        ensures { IsTrue result ↔ IsActive self.now v }
    {
        v < self.blocks.nodes()
            && self.blocks.excess(v) > 0
            && (self.blocks.label(v) as usize) < self.blocks.nodes() + 2
    }

    /// Whether excess of a node can go to the sink.
    fn may_push_sink(&self, v: usize) -> bool
        ensures { IsTrue result ↔ IsEnabled self.now (PushSink v) }
    {
        self.is_active(v) && self.blocks.may_give(v)
    }

    /// Excess of a node goes to the sink; no where that is not enabled, and nothing changes.
    fn push_sink(&mut self, v: usize) -> bool
        ensures { HappensIfEnabled self.old (PushSink v) self.new result }
    {
        if !self.may_push_sink(v) {
            return false;
        }
        let amount = self.blocks.give(v);
        self.got += amount;
        true
    }

    /// Whether excess can go along a direction within a block.
    fn may_push_inner(&self, direction: Direction) -> bool
        ensures { IsTrue result ↔ IsEnabled self.now (PushInner direction) }
    {
        if self.blocks.arcs() <= direction.arc || self.blocks.is_border(direction) {
            return false;
        }
        self.is_active(self.blocks.near(direction)) && self.blocks.may_push(direction)
    }

    /// Whether excess can leave along a direction to another block.
    fn may_send(&self, direction: Direction) -> bool
        ensures { IsTrue result ↔ IsEnabled self.now (Send direction) }
    {
        if self.blocks.arcs() <= direction.arc || !self.blocks.is_border(direction) {
            return false;
        }
        self.is_active(self.blocks.near(direction)) && self.blocks.may_send(direction)
    }

    /// Excess goes along a direction within a block; no where that is not enabled, and nothing
    /// changes.
    fn push_inner(&mut self, direction: Direction) -> bool
        ensures { HappensIfEnabled self.old (PushInner direction) self.new result }
    {
        if !self.may_push_inner(direction) {
            return false;
        }
        self.blocks.push(direction);
        true
    }

    /// Excess leaves along a direction to another block; no where that is not enabled, and nothing
    /// changes.
    fn send(&mut self, direction: Direction) -> bool
        ensures { HappensIfEnabled self.old (Send direction) self.new result }
    {
        if !self.may_send(direction) {
            return false;
        }
        let near = self.blocks.near(direction);
        let from = self.blocks.node_block(near);
        let far = self.blocks.far(direction);
        let to = self.blocks.node_block(far);
        let parcel = self.blocks.send(direction);
        self.ways.put(from, to, parcel);
        true
    }

    /// A node gets the highest label that it may have; no where that is not enabled, and nothing
    /// changes.
    fn relabel(&mut self, v: usize) -> bool
        ensures { HappensIfEnabled self.old (Relabel v) self.new result }
    {
        if !self.is_active(v) {
            return false;
        }
        let highest = self.blocks.highest_label(v);
        if highest <= self.blocks.label(v) {
            return false;
        }
        self.blocks.relabel(v, highest);
        true
    }

    /// The message in front of a way; none where there is no such way, or no message on it.
    pub fn front(&self, from: usize, to: usize) -> Option<Message>
        ensures some { IfSome result (λ m. IsWay self.now from to
            × (way_at self.now.ways from to ≡ m ∷ drop 1 (way_at self.now.ways from to))) }
        ensures none { IfNone result (IsWay self.now from to → way_at self.now.ways from to ≡ []) }
    {
        if self.blocks.count() <= from || self.blocks.count() <= to {
            return None;
        }
        self.ways.front(from, to)
    }

    /// The message at a place of a way: at 0 stands the one in front. None where there is no such
    /// way, or no message at the place.
    pub fn message(&self, from: usize, to: usize, place: usize) -> Option<Message>
        ensures some { IfSome result (λ m. IsWay self.now from to
            × (slice_get (way_at self.now.ways from to) place ≡ Some m)) }
        ensures none { IfNone result (IsWay self.now from to →
            length (way_at self.now.ways from to) ≤ place) }
    {
        if self.blocks.count() <= from || self.blocks.count() <= to {
            return None;
        }
        self.ways.message(from, to, place)
    }

    /// The parcel in front of a way is taken.
    fn take_parcel(&mut self, from: usize, to: usize, direction: Direction, amount: u64, label: u32)
        requires way { IsWay self.old from to }
        requires front { way_at self.old.ways from to
            ≡ Parcel direction amount label ∷ drop 1 (way_at self.old.ways from to) }
        requires label { label_of self.old (far self.old.net direction) + 1 ≡ label }
        ensures { self.new ≡ effect self.old (Accept from to) }
    {
        let accepted = self.blocks.accept(direction, amount, label);
        self.ways.take(from, to);
        self.ways.put(to, from, accepted);
    }

    /// The parcel in front of a way is sent back.
    fn refuse_parcel(
        &mut self,
        from: usize,
        to: usize,
        direction: Direction,
        amount: u64,
        label: u32,
    )
        requires way { IsWay self.old from to }
        requires front { way_at self.old.ways from to
            ≡ Parcel direction amount label ∷ drop 1 (way_at self.old.ways from to) }
        requires label { label ≤ label_of self.old (far self.old.net direction) }
        ensures { self.new ≡ effect self.old (Refuse from to) }
    {
        let refused = self.blocks.refusal(direction, amount, label);
        self.ways.take(from, to);
        self.ways.put(to, from, refused);
    }

    /// The answer in front of a way says that a parcel was taken.
    fn deliver_parcel(&mut self, from: usize, to: usize, direction: Direction, amount: u64)
        requires way { IsWay self.old from to }
        requires front { way_at self.old.ways from to
            ≡ Accepted direction amount ∷ drop 1 (way_at self.old.ways from to) }
        ensures { self.new ≡ effect self.old (Settle from to) }
    {
        self.blocks.deliver_parcel(direction);
        self.ways.take(from, to);
    }

    /// The answer in front of a way says that a parcel was not taken.
    fn return_parcel(
        &mut self,
        from: usize,
        to: usize,
        direction: Direction,
        amount: u64,
        label: u32,
        told: u32,
    )
        requires way { IsWay self.old from to }
        requires front { way_at self.old.ways from to
            ≡ Refused direction amount label told ∷ drop 1 (way_at self.old.ways from to) }
        ensures { self.new ≡ effect self.old (Settle from to) }
    {
        self.blocks.return_parcel(direction, amount, told);
        self.ways.take(from, to);
    }

    /// Whether no message is on the way.
    pub fn is_quiet(&self) -> bool
        ensures { IsTrue result ↔ IsQuiet self.now }
    {
        self.ways.is_quiet(self.blocks.count())
    }

    /// Each label becomes the exact one; no where that is not enabled, and nothing changes.
    fn raise_all(&mut self) -> bool
        ensures { HappensIfEnabled self.old RaiseAll self.new result }
    {
        if !self.is_quiet() {
            return false;
        }
        self.blocks.raise();
        true
    }

    /// Each node gets the exact label that is told, and each direction to another block knows that
    /// of its far end, where no message is on the way: the event that raises all labels, for labels
    /// that are at hand. Takes no memory.
    pub fn raise_to(&mut self, labels: &[u32])
        requires quiet { IsQuiet self.old }
        requires exact { AreExact self.old labels.now }
        ensures { Happens self.old RaiseAll self.new }
    {
        self.blocks.raise_to(labels);
    }

    /// The parcel in front of a way is taken; no where that is not enabled, and nothing changes.
    fn accept(&mut self, from: usize, to: usize) -> bool
        ensures { HappensIfEnabled self.old (Accept from to) self.new result }
    {
        match self.front(from, to) {
            Some(
                Message::Parcel {
                    direction,
                    amount,
                    label,
                },
            ) => {
                if !self.blocks.may_accept(direction, label) {
                    return false;
                }
                self.take_parcel(from, to, direction, amount, label);
                true
            }
            _ => false,
        }
    }

    /// The parcel in front of a way is sent back; no where that is not enabled, and nothing
    /// changes.
    fn refuse(&mut self, from: usize, to: usize) -> bool
        ensures { HappensIfEnabled self.old (Refuse from to) self.new result }
    {
        match self.front(from, to) {
            Some(
                Message::Parcel {
                    direction,
                    amount,
                    label,
                },
            ) => {
                if !self.blocks.may_refuse(direction, label) {
                    return false;
                }
                self.refuse_parcel(from, to, direction, amount, label);
                true
            }
            _ => false,
        }
    }

    /// The answer in front of a way ends its flight; no where that is not enabled, and nothing
    /// changes.
    fn settle(&mut self, from: usize, to: usize) -> bool
        ensures { HappensIfEnabled self.old (Settle from to) self.new result }
    {
        match self.front(from, to) {
            Some(Message::Accepted { direction, amount }) => {
                self.deliver_parcel(from, to, direction, amount);
                true
            }
            Some(
                Message::Refused {
                    direction,
                    amount,
                    label,
                    told,
                },
            ) => {
                self.return_parcel(from, to, direction, amount, label, told);
                true
            }
            _ => false,
        }
    }

    /// The event happens; no where it is not enabled, and nothing changes. Takes no memory.
    pub fn perform(&mut self, event: Event) -> bool
        ensures happens { HappensIfEnabled self.old event self.new result }
        ensures sound { IsSound self.old }
    {
        // Reading a field brings the state's soundness to hand.
        let _ = &self.got;
        match event {
            Event::PushInner { direction } => self.push_inner(direction),
            Event::PushSink { node } => self.push_sink(node as usize),
            Event::Relabel { node } => self.relabel(node as usize),
            Event::Send { direction } => self.send(direction),
            Event::Accept { from, to } => self.accept(from as usize, to as usize),
            Event::Refuse { from, to } => self.refuse(from as usize, to as usize),
            Event::Settle { from, to } => self.settle(from as usize, to as usize),
            Event::RaiseAll => self.raise_all(),
        }
    }
}
