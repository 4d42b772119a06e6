//! Two rings between two blocks, and what is left in them at the end.
ghost use Rattle.std.specs.Prelude.{◌≡◌, ◌≤◌, ◌++◌, IfOk, IfNone, IfSome, length};
ghost use Rattle.std.specs.Prelude.{vec_len, vec_capacity};
ghost use Rattle.block_workers.specs.Ports.{CanServeRound, IsNewPort, LeadsTo, Looks, TakesAll};
ghost use Rattle.block_workers.specs.Ports.{IsPortAgain, capacity, other};
ghost use Rattle.block_workers.specs.Ports.{letters_put, letters_taken, letters_waiting};

use crate::port::Port;
use crate::ring_end::Inlet;
use block_discharge::Letter;
use std::alloc::{AllocError, Global};

/// Two new rings, one each way between two blocks, with room for so many letters each; the port of
/// the first block, and that of the second. The only error is that memory runs out.
pub fn join_blocks(
    alloc: Global,
    first: u32,
    second: u32,
    ring: usize,
) -> Result<(Port, Port), AllocError>
    ensures first { IfOk result (λ ports. IsNewPort second ring ports.0) }
    ensures second { IfOk result (λ ports. IsNewPort first ring ports.1) }
    ensures there { IfOk result (λ ports. LeadsTo ports.0 ports.1) }
    ensures back { IfOk result (λ ports. LeadsTo ports.1 ports.0) }
{
    let (to_second, from_first) = Inlet::join(alloc, ring)?;
    let (to_first, from_second) = Inlet::join(alloc, ring)?;
    let first_port = Port {
        other: second,
        to_ring: to_second,
        from_ring: from_second,
    };
    let second_port = Port {
        other: first,
        to_ring: to_first,
        from_ring: from_first,
    };
    Ok((first_port, second_port))
}

/// The ports of two blocks to one another, for a new round, with the rings that they have: exactly
/// where both are empty, have room for so many letters, and so many more can be counted. Takes no
/// memory.
pub fn join_again(first: Port, second: Port, ring: usize) -> Option<(Port, Port)>
    requires there { LeadsTo first second }
    requires back { LeadsTo second first }
    ensures first { IfSome result (λ ports. IsNewPort (other first) ring ports.0) }
    ensures second { IfSome result (λ ports. IsNewPort (other second) ring ports.1) }
    ensures same_first { IfSome result (λ ports. IsPortAgain first ports.0) }
    ensures same_second { IfSome result (λ ports. IsPortAgain second ports.1) }
    ensures there { IfSome result (λ ports. LeadsTo ports.0 ports.1) }
    ensures back { IfSome result (λ ports. LeadsTo ports.1 ports.0) }
    ensures refused { IfNone result (CanServeRound ring first second
        → CanServeRound ring second first → ⊥) }
{
    let (mut first, mut second) = (first, second);
    if second.from_ring.begin(&mut first.to_ring, ring)
        && first.from_ring.begin(&mut second.to_ring, ring)
    {
        return Some((first, second));
    }
    None
}

/// Looks at what is left in the ring from one port to another, once neither is in use elsewhere:
/// how many letters wait there. What was put is then what was taken, followed by what was seen.
/// Takes no memory.
pub fn see_left(from: &mut Port, to: &mut Port) -> usize
    requires joined { LeadsTo from.old to.old }
    ensures left { letters_put from.old ≡ letters_taken to.old ++ letters_waiting to.new }
    ensures count { result ≡ length (letters_waiting to.new) }
    ensures room { result ≤ capacity from.old }
    ensures from { Looks from.old from.new }
    ensures to { Looks to.old to.new }
{
    to.from_ring.see_left(&mut from.to_ring)
}

/// Takes all that is left in the ring from one port to another into a list with room for a full
/// ring. What was put is then what was taken, followed by that list. Takes no memory.
pub fn take_left(from: &mut Port, to: &mut Port, left: &mut Vec<Letter>)
    requires joined { LeadsTo from.old to.old }
    requires empty { vec_len left.old ≡ 0 }
    requires room { capacity from.old ≤ vec_capacity left.old }
    ensures left { letters_put from.old ≡ letters_taken to.old ++ left.new.items }
    ensures from { Looks from.old from.new }
    ensures to { TakesAll left.new.items to.old to.new }
{
    let count = see_left(from, to);
    for _ in 0..count {
        left.push_reserved(to.from_ring.take());
    }
}
