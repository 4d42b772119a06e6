//! A turn of a block over the core's ways.
ghost use Rattle.std.specs.Prelude.{◌≡◌, ◌*◌, ◌<◌, ◌≤◌, length};
ghost use Rattle.block_events.specs.Soundness.{IsSquare};
ghost use Rattle.block_net.specs.Limits.{arc_limit};
ghost use Rattle.block_discharge.specs.Steps.{Step, IsSure};
ghost use Rattle.cut_in_blocks.specs.WayEnds.{seen_by, way_ends_view};
ghost use Rattle.cut_in_blocks.specs.Turns.{ReachesFrom};

use crate::way_ends::WayEnds;
use block_discharge::{Block, turn};
use block_state::AllWays;

/// One turn of a block over the core's ways, by ends that were just made: it does a list of at most
/// `limit` events, which is a run of the core, and answers how many. Takes no memory.
pub(crate) fn turn_over(block: &mut Block, ends: &mut WayEnds, limit: u32) -> u32
    requires { ends.old.now ≡ ends.old.first }
    ensures few { result ≤ limit }
    ensures some { 0 < limit → (e : Step) → IsSure block.old (seen_by ends.old) e → 0 < result }
    ensures same { ends.new ≡ record ends.old { now = ends.new.now } }
    ensures rooms { ends.new.now.rooms ≡ ends.old.now.rooms }
    ensures run { ReachesFrom ends.old.blocks ends.old.block result block.old block.new
        ends.old.now.messages ends.new.now.messages }
{
    let count = turn(block, ends, limit);
    ends.are_ends();
    count
}

/// One turn of block `b` of so many over the ways that are given, with the table of the directions'
/// places: the ways and the table afterwards, and how many events it did. Takes no memory.
pub(crate) fn turn_of(
    block: &mut Block,
    ways: AllWays,
    slots: Vec<u32>,
    b: usize,
    blocks: usize,
    arcs: usize,
    limit: u32,
) -> (AllWays, Vec<u32>, u32)
    requires block { b < blocks }
    requires square { IsSquare blocks ways.messages }
    requires slots { length slots.items ≡ 2 * arcs }
    requires arcs { arcs ≤ arc_limit }
    ensures rooms { result.0.rooms ≡ ways.rooms }
    ensures slots { result.1.items ≡ slots.items }
    ensures few { result.2 ≤ limit }
    ensures some { 0 < limit → (e : Step)
        → IsSure block.old (seen_by (way_ends_view b blocks ways ways slots.items arcs))
        e → 0 < result.2 }
    ensures run { ReachesFrom blocks b result.2 block.old block.new ways.messages
        result.0.messages }
{
    let mut ends = WayEnds::new(b, blocks, ways, slots, arcs);
    let count = turn_over(block, &mut ends, limit);
    let (ways, slots) = ends.into_ways();
    (ways, slots, count)
}
