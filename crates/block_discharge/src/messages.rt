//! Messages that a block takes.
ghost use Rattle.std.specs.Prelude.{◌≡◌, ◌↔◌, ◌<◌, ◌≤◌, ℕ, Some, IsTrue, length, slice_index};
ghost use Rattle.block_events.specs.declared.message.Message.TheVariants.{Parcel, Accepted};
ghost use Rattle.block_events.specs.declared.message.Message.TheVariants.{Refused};
ghost use Rattle.block_events.specs.Directions.{opposite};
ghost use Rattle.block_discharge.specs.Steps.{IsFrom, MayAcceptAt, MayRefuseAt, MaySettleAt};
ghost use Rattle.block_discharge.specs.Steps.{Settle};
ghost use Rattle.block_discharge.specs.Calls.{Performs, TakesParcel};
ghost use Rattle.block_discharge.specs.Works.{DoesEvents, IsIdleFrom};

use crate::{Bucketed, Letter, Ways};
use block_events::{Direction, Flight, Message};
use block_net::Cells;

/// Whether two directions are opposite.
fn are_opposite(x: Direction, y: Direction) -> bool
    ensures { IsTrue result ↔ (opposite x ≡ y) }
{
    x.arc == y.arc && x.back != y.back
}

/// Whether a direction to another block stands at the place, and leads to that block.
fn is_from(cells: &Cells, from: u32, place: u32) -> bool
    ensures { IsTrue result ↔ IsFrom cells.now from place }
{
    (place as usize) < cells.borders() && cells.border(place as usize).to == from
}

/// Whether a parcel is to be taken.
fn may_accept(
    cells: &Cells,
    from: u32,
    place: u32,
    direction: Direction,
    amount: u64,
    label: u32,
) -> bool
    ensures { IsTrue result ↔ MayAcceptAt cells.now from place (Parcel direction amount label) }
{
    if amount == 0 || !is_from(cells, from, place) {
        return false;
    }
    let border = cells.border(place as usize);
    if !are_opposite(border.direction, direction) {
        return false;
    }
    if !cells.may_accept(place as usize, label) || cells.top() < label {
        return false;
    }
    let held = match border.flight {
        Some(flight) => border.residual + flight.amount,
        None => border.residual,
    };
    amount <= border.capacity - held
}

/// Whether a parcel is to be sent back.
fn may_refuse(
    cells: &Cells,
    from: u32,
    place: u32,
    direction: Direction,
    amount: u64,
    label: u32,
) -> bool
    ensures { IsTrue result ↔ MayRefuseAt cells.now from place (Parcel direction amount label) }
{
    if amount == 0 || label == 0 || !is_from(cells, from, place) {
        return false;
    }
    let border = cells.border(place as usize);
    are_opposite(border.direction, direction) && cells.may_refuse(place as usize, label)
}

/// Takes the parcel in front, where that is enabled and there is room for the answer: one event or
/// none.
pub(crate) fn receive_parcel<W: Ways>(
    cells: &mut Bucketed,
    ways: &mut W,
    from: u32,
    place: u32,
    direction: Direction,
    amount: u64,
    label: u32,
) -> u32
    requires front { (W.seen ways.old).front from
        ≡ Some (record { message = Parcel direction amount label; place = place }) }
    ensures identity { W.identity ways.new ≡ W.identity ways.old }
    ensures few { result ≤ 1 }
    ensures still { result ≡ 0 → cells.new ≡ cells.old }
    ensures does { DoesEvents cells.old.block (W.seen ways.old) result cells.new.block
        (W.seen ways.new) }
    ensures done { 0 < result → TakesParcel cells.old.block (W.seen ways.old) from
        (record { message = Parcel direction amount label; place = place })
        cells.new.block (W.seen ways.new) }
    ensures idle { result ≡ 0 → IsIdleFrom cells.old.block (W.seen ways.old) from }
{
    let accepts = may_accept(cells.cells(), from, place, direction, amount, label);
    let refuses = may_refuse(cells.cells(), from, place, direction, amount, label);
    if !accepts && !refuses {
        return 0;
    }
    if !ways.room(from) {
        return 0;
    }
    let back = cells.border(place as usize).opposite;
    if accepts {
        let accepted = cells.accept(place as usize, amount, label);
        ways.put(
            from,
            Letter {
                message: accepted,
                place: back,
            },
        );
        ways.take(from);
    } else {
        let refused = cells.cells().refusal(place as usize, amount, label);
        ways.put(
            from,
            Letter {
                message: refused,
                place: back,
            },
        );
        ways.take(from);
    }
    1
}

/// Whether two directions are one.
fn are_same(x: Direction, y: Direction) -> bool
    ensures { IsTrue result ↔ (x ≡ y) }
{
    x.arc == y.arc && x.back == y.back
}

/// Whether the answer that a parcel was taken is to be taken.
fn may_deliver(cells: &Cells, from: u32, place: u32, direction: Direction, amount: u64) -> bool
    ensures { IsTrue result ↔ MaySettleAt cells.now from place (Accepted direction amount) }
{
    if amount == 0 || !is_from(cells, from, place) {
        return false;
    }
    let border = cells.border(place as usize);
    if !are_same(border.direction, direction) {
        return false;
    }
    match border.flight {
        Some(flight) => flight.amount == amount,
        None => false,
    }
}

/// Whether the answer that a parcel was not taken is to be taken.
fn may_return(
    cells: &Cells,
    from: u32,
    place: u32,
    direction: Direction,
    flight: Flight,
    told: u32,
) -> bool
    ensures { IsTrue result
        ↔ MaySettleAt cells.now from place (Refused direction flight.amount flight.label told) }
{
    if flight.amount == 0 || flight.label == 0 || told < flight.label {
        return false;
    }
    if !is_from(cells, from, place) {
        return false;
    }
    let border = cells.border(place as usize);
    if !are_same(border.direction, direction) || cells.top() < told {
        return false;
    }
    match border.flight {
        Some(out) => out.amount == flight.amount && out.label == flight.label,
        None => false,
    }
}

/// Takes the answer in front that a parcel was taken, where that is enabled: one event or none.
pub(crate) fn receive_accepted<W: Ways>(
    cells: &mut Bucketed,
    ways: &mut W,
    from: u32,
    place: u32,
    direction: Direction,
    amount: u64,
) -> u32
    requires front { (W.seen ways.old).front from
        ≡ Some (record { message = Accepted direction amount; place = place }) }
    ensures identity { W.identity ways.new ≡ W.identity ways.old }
    ensures few { result ≤ 1 }
    ensures still { result ≡ 0 → cells.new ≡ cells.old }
    ensures does { DoesEvents cells.old.block (W.seen ways.old) result cells.new.block
        (W.seen ways.new) }
    ensures done { 0 < result → Performs cells.old.block (W.seen ways.old)
        (Settle from (record { message = Accepted direction amount; place = place }))
        cells.new.block (W.seen ways.new) }
    ensures idle { result ≡ 0 → IsIdleFrom cells.old.block (W.seen ways.old) from }
{
    if !may_deliver(cells.cells(), from, place, direction, amount) {
        return 0;
    }
    ways.take(from);
    cells.deliver_parcel(place as usize);
    1
}

/// Takes the answer in front that a parcel was not taken, where that is enabled: one event or none.
pub(crate) fn receive_refused<W: Ways>(
    cells: &mut Bucketed,
    ways: &mut W,
    from: u32,
    place: u32,
    direction: Direction,
    flight: Flight,
    told: u32,
) -> u32
    requires front { (W.seen ways.old).front from
        ≡ Some (record {
          message = Refused direction flight.amount flight.label told;
          place = place;
        }) }
    ensures identity { W.identity ways.new ≡ W.identity ways.old }
    ensures few { result ≤ 1 }
    ensures still { result ≡ 0 → cells.new ≡ cells.old }
    ensures does { DoesEvents cells.old.block (W.seen ways.old) result cells.new.block
        (W.seen ways.new) }
    ensures done { 0 < result → Performs cells.old.block (W.seen ways.old)
        (Settle from
        (record { message = Refused direction flight.amount flight.label told; place = place }))
        cells.new.block (W.seen ways.new) }
    ensures idle { result ≡ 0 → IsIdleFrom cells.old.block (W.seen ways.old) from }
{
    if !may_return(cells.cells(), from, place, direction, flight, told) {
        return 0;
    }
    let near = cells.border(place as usize).near;
    ways.take(from);
    cells.return_parcel(place as usize, flight.amount, told);
    1
}

/// Takes the message in front from a block, where that is enabled: one event or none.
fn take_front<W: Ways>(cells: &mut Bucketed, ways: &mut W, from: u32) -> u32
    ensures identity { W.identity ways.new ≡ W.identity ways.old }
    ensures few { result ≤ 1 }
    ensures still { result ≡ 0 → cells.new ≡ cells.old }
    ensures does { DoesEvents cells.old.block (W.seen ways.old) result cells.new.block
        (W.seen ways.new) }
    ensures idle { result ≡ 0 → IsIdleFrom cells.old.block (W.seen ways.old) from }
{
    match ways.front(from) {
        Some(
            Letter {
                message: Message::Parcel {
                    direction,
                    amount,
                    label,
                },
                place,
            },
        ) => receive_parcel(cells, ways, from, place, direction, amount, label),
        Some(
            Letter {
                message: Message::Accepted { direction, amount },
                place,
            },
        ) => receive_accepted(cells, ways, from, place, direction, amount),
        Some(
            Letter {
                message: Message::Refused {
                    direction,
                    amount,
                    label,
                    told,
                },
                place,
            },
        ) => receive_refused(
            cells,
            ways,
            from,
            place,
            direction,
            Flight { amount, label },
            told,
        ),
        None => 0,
    }
}

/// Takes the messages from a block, as long as they are enabled: at most `limit` events.
fn receive_from<W: Ways>(cells: &mut Bucketed, ways: &mut W, from: u32, limit: u32) -> u32
    ensures identity { W.identity ways.new ≡ W.identity ways.old }
    ensures few { result ≤ limit }
    ensures still { result ≡ 0 → cells.new ≡ cells.old }
    ensures does { DoesEvents cells.old.block (W.seen ways.old) result cells.new.block
        (W.seen ways.new) }
    ensures idle { result ≡ 0 → 0 < limit → IsIdleFrom cells.old.block (W.seen ways.old) from }
{
    'messages: for count in 0..limit {
        if take_front(cells, ways, from) == 0 {
            return count;
        }
    }
    limit
}

/// Takes the messages from all these blocks, as long as they are enabled: at most `limit` events.
pub(crate) fn receive_all<W: Ways>(
    cells: &mut Bucketed,
    ways: &mut W,
    others: &[u32],
    limit: u32,
) -> u32
    ensures identity { W.identity ways.new ≡ W.identity ways.old }
    ensures few { result ≤ limit }
    ensures still { result ≡ 0 → cells.new ≡ cells.old }
    ensures does { DoesEvents cells.old.block (W.seen ways.old) result cells.new.block
        (W.seen ways.new) }
    ensures idle { result ≡ 0 → 0 < limit → (k : ℕ) → k < length others.now
        → IsIdleFrom cells.old.block (W.seen ways.old) (slice_index others.now k) }
{
    let mut count = 0;
    'others: for i in 0..others.len() {
        count += receive_from(cells, ways, others[i], limit - count);
    }
    count
}
