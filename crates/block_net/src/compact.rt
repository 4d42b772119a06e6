//! A direction to another block in 48 bytes.
ghost use Rattle.std.specs.Prelude.{◌≡◌, ◌<◌, ◌^◌};
ghost use Rattle.block_net.specs.Limits.{block_limit};

use crate::Border;
use block_events::{Direction, Flight};
use std::marker::Model;

/// A direction to another block as a block keeps it, in 48 bytes: an arc's place is below
/// `ARC_LIMIT`, and a block below `BLOCK_LIMIT`.
#[derive(Drop)]
pub struct CompactBorder {
    capacity: u64,
    residual: u64,
    /// The amount and the label of the parcel that is out, where one is.
    amount: u64,
    arc: u32,
    near: u32,
    opposite: u32,
    known: u32,
    label: u32,
    to: u8,
    back: bool,
    is_out: bool,
}

const _: () = prove!(size_of::<CompactBorder>() == 48);

impl Model for CompactBorder {
    ghost use Rattle.std.specs.Prelude.{Some, None, cond};
    ghost use Rattle.block_net.specs.declared.lanes.Border.{Border};

    ghost Value = { Border };

    ghost view = { λ b. record {
      direction = record { arc = b.arc; back = b.back };
      near = b.near;
      to = b.to;
      opposite = b.opposite;
      capacity = b.capacity;
      residual = b.residual;
      known = b.known;
      flight = cond b.is_out (Some (record { amount = b.amount; label = b.label })) None;
    } };
}

impl CompactBorder {
    /// The direction to another block, kept.
    pub fn of(border: Border) -> CompactBorder
        requires arc { border.direction.arc < 2 ^ 32 }
        requires to { border.to < block_limit }
        ensures { result ≡ border }
    {
        let (is_out, amount, label) = match border.flight {
            Some(flight) => (true, flight.amount, flight.label),
            None => (false, 0, 0),
        };
        CompactBorder {
            capacity: border.capacity,
            residual: border.residual,
            amount,
            arc: border.direction.arc as u32,
            near: border.near,
            opposite: border.opposite,
            known: border.known,
            label,
            to: border.to as u8,
            back: border.direction.back,
            is_out,
        }
    }

    /// What it can still carry, the label that is known of the far end and the parcel that is out
    /// are these from now on.
    pub(crate) fn set(&mut self, residual: u64, known: u32, flight: Option<Flight>)
        ensures { self.new ≡ record self.old
            { residual = residual; known = known; flight = flight } }
    {
        self.residual = residual;
        self.known = known;
        self.is_out = flight.is_some();
        if let Some(flight) = flight {
            self.amount = flight.amount;
            self.label = flight.label;
        }
    }

    /// The direction to another block that is kept.
    pub(crate) fn border(&self) -> Border
        ensures value { result ≡ self.now }
        ensures arc { result.direction.arc < 2 ^ 32 }
    {
        let flight = if self.is_out {
            Some(Flight {
                amount: self.amount,
                label: self.label,
            })
        } else {
            None
        };
        Border {
            direction: Direction {
                arc: self.arc as usize,
                back: self.back,
            },
            near: self.near,
            to: self.to as u32,
            opposite: self.opposite,
            capacity: self.capacity,
            residual: self.residual,
            known: self.known,
            flight,
        }
    }
}
