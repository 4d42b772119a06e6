//! A message in 24 bytes.
ghost use Rattle.std.specs.Prelude.{◌≡◌, ◌<◌, ◌^◌};
ghost use Rattle.block_events.specs.Soundness.{direction_of};
ghost use Rattle.block_state.specs.Compact.{message_of};

use block_events::{Direction, Message};
use std::marker::Model;

/// What a message says of an amount.
#[derive(Clone, Copy)]
enum Kind {
    /// It is offered.
    Offer,
    /// It was taken.
    Taken,
    /// It was not taken.
    Returned,
}

/// A message as a way keeps it, in 24 bytes: an arc's place is below `ARC_LIMIT`.
#[derive(Drop)]
pub struct CompactMessage {
    amount: u64,
    arc: u32,
    label: u32,
    told: u32,
    back: bool,
    kind: Kind,
}

const _: () = prove!(size_of::<CompactMessage>() == 24);

impl Model for CompactMessage {
    ghost use Rattle.block_events.specs.declared.message.Message.{Message};

    ghost Value = { Message };

    ghost use Rattle.block_state.specs.Compact.{message_of};

    ghost view = { λ m. message_of m.kind (record { arc = m.arc; back = m.back })
        m.amount m.label m.told };
}

impl CompactMessage {
    /// A message from its parts.
    fn pack(kind: Kind, direction: Direction, amount: u64, label: u32, told: u32) -> CompactMessage
        requires { direction.arc < 2 ^ 32 }
        ensures { result ≡ message_of kind direction amount label told }
    {
        CompactMessage {
            amount,
            arc: direction.arc as u32,
            label,
            told,
            back: direction.back,
            kind,
        }
    }

    /// The message, kept.
    pub fn of(message: Message) -> CompactMessage
        requires { (direction_of message).arc < 2 ^ 32 }
        ensures { result ≡ message }
    {
        match message {
            Message::Parcel {
                direction,
                amount,
                label,
            } => CompactMessage::pack(Kind::Offer, direction, amount, label, 0),
            Message::Accepted { direction, amount } => {
                CompactMessage::pack(Kind::Taken, direction, amount, 0, 0)
            }
            Message::Refused {
                direction,
                amount,
                label,
                told,
            } => CompactMessage::pack(Kind::Returned, direction, amount, label, told),
        }
    }

    /// The message that is kept.
    pub fn message(&self) -> Message
        ensures { result ≡ self.now }
    {
        let direction = Direction {
            arc: self.arc as usize,
            back: self.back,
        };
        let amount = self.amount;
        let label = self.label;
        match self.kind {
            Kind::Offer => Message::Parcel {
                direction,
                amount,
                label,
            },
            Kind::Taken => Message::Accepted { direction, amount },
            Kind::Returned => Message::Refused {
                direction,
                amount,
                label,
                told: self.told,
            },
        }
    }
}
