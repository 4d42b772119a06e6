//! A state that goes from event to event.
ghost use Rattle.std.specs.Prelude.{◌≡◌, IfOk, OnOk, OnErr};
ghost use Rattle.block_events.specs.Events.{IsEnabled, Happens};
ghost use Rattle.block_events.specs.Soundness.{opening_state};
ghost use Rattle.block_split.specs.Split.{CanSplit};

use crate::state::State;
use block_events::Event;
use flow_network::Net;
use std::alloc::{AllocError, Global};
use std::marker::Model;
use thiserror::Error;

/// The event was not enabled, and nothing was changed.
#[derive(Clone, Copy, PartialEq, Eq, Debug, Error)]
#[error("the event is not enabled")]
pub struct NotEnabled;

/// The core: a sound state that goes from event to event, each enabled where it stands.
///
/// Its steps are those of the push-relabel method over blocks that know of each other only by
/// messages (Goldberg, Tarjan 1988, sections 2 and 4). Whatever the order of events, the state
/// stays sound.
#[derive(Drop)]
pub struct Core {
    state: State,
}

impl Model for Core {
    ghost use Rattle.block_events.specs.States as core;

    ghost Value = { core.State };

    ghost view = { λ c. c.state };
}

impl Core {
    /// The opening of a net in so many blocks, at least one and at most `BLOCK_LIMIT`, where it has
    /// at most `ARC_LIMIT` arcs: node i of n lies in block `i * blocks / n`. The only error is that
    /// memory runs out.
    pub fn open(alloc: Global, net: &Net, blocks: usize) -> Result<Core, AllocError>
        requires { CanSplit net.now blocks }
        ensures { IfOk result (λ core. core ≡ opening_state net.now blocks) }
    {
        let state = State::open(alloc, net, blocks)?;
        Ok(Core { state })
    }

    /// The event happens, where it is enabled; otherwise it is refused, and nothing is changed.
    /// Takes no memory.
    pub fn apply(&mut self, event: Event) -> Result<(), NotEnabled>
        ensures done { OnOk result (Happens self.old event self.new) }
        ensures refused { OnErr result ((¬ IsEnabled self.old event) × (self.new ≡ self.old)) }
    {
        if self.state.perform(event) {
            Ok(())
        } else {
            Err(NotEnabled)
        }
    }

    /// The state that the events led to.
    pub fn state(&self) -> &State
        ensures { result.now ≡ self.now }
    {
        &self.state
    }

    /// The state that the events led to, which the core gives up.
    pub fn into_state(self) -> State
        ensures { result ≡ self }
    {
        self.state
    }
}
