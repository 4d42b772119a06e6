//! Rings of the round before, which serve again.
ghost use Rattle.std.specs.Prelude.{◌<◌, IfNone, IfOk, IfSome, OnErr, slice_index_or, vec_len};
ghost use Rattle.block_workers.specs.Ports.{IsNewPort, LeadsTo};
ghost use Rattle.block_rings.specs.Kept.{AreOfKept, AreRest, CanEachServe, HasPairOf, IsOfBlocks};
ghost use Rattle.block_rings.specs.declared.pair.PortPair.{PortPair as PairFields};

use crate::pair::PortPair;
use block_workers::{Port, join_blocks};
use std::alloc::{AllocError, Global};

/// The place of the pair of ports between two blocks, the last first. A round leaves its pairs in
/// the reverse of the order in which the next asks for them: so the last is the one, and it takes
/// one step.
fn place_of_pair(pairs: &Vec<PortPair>, b: u32, c: u32) -> Option<usize>
    ensures below { IfSome result (λ k. k < vec_len pairs.now) }
    ensures there { IfSome result
        (λ k. (d : PairFields) → IsOfBlocks b c (slice_index_or pairs.now.items k d)) }
    ensures none { IfNone result (HasPairOf b c pairs.now.items → ⊥) }
{
    for k in (0..pairs.len()).rev() {
        if pairs[k].is_of_blocks(b, c) {
            return Some(k);
        }
    }
    None
}

/// The ports of a pair that was kept, for a new round between two blocks, where their rings serve.
/// The pair is taken out, and no other. Takes no memory.
fn kept_ports(pairs: &mut Vec<PortPair>, b: u32, c: u32, ring: usize) -> Option<(Port, Port)>
    ensures first { IfSome result (λ ports. IsNewPort c ring ports.0) }
    ensures second { IfSome result (λ ports. IsNewPort b ring ports.1) }
    ensures there { IfSome result (λ ports. LeadsTo ports.0 ports.1) }
    ensures back { IfSome result (λ ports. LeadsTo ports.1 ports.0) }
    ensures used { IfSome result (λ ports. AreOfKept pairs.old.items ports.0 ports.1) }
    ensures kept { IfNone result (CanEachServe ring b c pairs.old.items
        → HasPairOf b c pairs.old.items → ⊥) }
    ensures rest { AreRest b c pairs.old.items pairs.new.items }
{
    match place_of_pair(pairs, b, c) {
        Some(k) => pairs.remove(k).again(b, c, ring),
        None => None,
    }
}

/// Two blocks' ports to one another, before a round, with room for so many letters in each ring:
/// of a pair that was kept, where its rings serve, and else of new rings. The pair is taken out,
/// and no other. The only error is that memory runs out, where new rings are made.
pub(crate) fn ports_between(
    alloc: Global,
    pairs: &mut Vec<PortPair>,
    b: u32,
    c: u32,
    ring: usize,
) -> Result<(Port, Port), AllocError>
    ensures first { IfOk result (λ ports. IsNewPort c ring ports.0) }
    ensures second { IfOk result (λ ports. IsNewPort b ring ports.1) }
    ensures there { IfOk result (λ ports. LeadsTo ports.0 ports.1) }
    ensures back { IfOk result (λ ports. LeadsTo ports.1 ports.0) }
    ensures used { IfOk result (λ ports. CanEachServe ring b c pairs.old.items
        → HasPairOf b c pairs.old.items → AreOfKept pairs.old.items ports.0 ports.1) }
    ensures refused { OnErr result (CanEachServe ring b c pairs.old.items
        → HasPairOf b c pairs.old.items → ⊥) }
    ensures rest { AreRest b c pairs.old.items pairs.new.items }
{
    match kept_ports(pairs, b, c, ring) {
        Some(ports) => Ok(ports),
        None => join_blocks(alloc, b, c, ring),
    }
}
