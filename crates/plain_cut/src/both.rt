//! A net that is cut twice, the second time with more room to the sink.
ghost use Rattle.std.specs.Prelude.{◌≡◌, ◌↔◌, ◌+◌, ◌<◌, ◌≤◌, ◌^◌, ℕ, IfOk, IsTrue, length};
ghost use Rattle.std.specs.Prelude.{slice_index, OnOk};
ghost use Rattle.std.specs.Simd.Lanes.{zip2};
ghost use Rattle.flow_network.specs.Cut.{nodes, set_of, with_larger_sinks, AreExtras, IsNet};
ghost use Rattle.flow_network.specs.Cut.{IsSmallestLeastCut, LiesWithin};
ghost use Rattle.sink_distances.specs.Distances.{AreDistancesButZeros};
ghost use Rattle.sink_distances.specs.Laid.{laid_net};
ghost use Rattle.sink_distances.specs.Standing.{AreLaid};
ghost use Rattle.plain_cut.specs.State.{work_flow, IsWork, HasNoActiveNode};

use crate::solver::{finish, least_side, maximise};
use crate::work::Work;
use crate::workspace::Workspace;
use sink_distances::{Laid, Outline, Rows};
use std::alloc::{AllocError, Global};

/// The sink sides of a net that is cut twice, as `both_sides_of` finds them: one bit for each node
/// in both.
#[derive(Drop)]
pub struct BothSides {
    /// The sink side of the smallest least cut of the net.
    pub lower: Vec<bool>,
    /// That of the net in which nodes can send the sink more.
    pub upper: Vec<bool>,
}

/// Adds to each number that at its place in the other list.
fn add_each(numbers: &mut [u64], more: &[u64])
    requires len { length more.now ≡ length numbers.old }
    requires small { (v : ℕ) → v < length numbers.old →
        slice_index numbers.old v + slice_index more.now v < 2 ^ 64 }
    ensures { numbers.new ≡ zip2 (λ number extra. number + extra) numbers.old more.now }
{
    'places: for v in 0..more.len() {
        numbers[v] += more[v];
    }
}

/// Whether the numbers are all 0.
fn are_none(more: &[u64]) -> bool
    ensures { IsTrue result ↔ ((v : ℕ) → v < length more.now → slice_index more.now v ≡ 0) }
{
    'places: for v in 0..more.len() {
        if more[v] != 0 {
            return false;
        }
    }
    true
}

/// A label below the top one becomes 0, and the top one 1.
fn tell_sides(labels: &mut [u32], top: u32)
    ensures below { (v : ℕ) → v < length labels.old → slice_index labels.old v < top →
        slice_index labels.new v ≡ 0 }
    ensures at { (v : ℕ) → v < length labels.old → top ≤ slice_index labels.old v →
        slice_index labels.new v ≡ 1 }
{
    'nodes: for v in 0..labels.len() {
        labels[v] = if labels[v] < top { 0 } else { 1 };
    }
}

/// Gives each node so much more room to the sink: work that is finished in the net becomes work of
/// the wider one. The nodes that reach the sink get the label 0, so that they count as the sink:
/// they have no excess, and no residual direction leads to them from the others, which get the
/// label 1.
fn add_room(net: &Outline, wider: &Outline, work: &mut Work, more: &[u64])
    requires limits { IsNet net.now }
    requires extras { AreExtras net.now more.now }
    requires wider { wider.now ≡ with_larger_sinks net.now more.now }
    requires work { IsWork net.now work.old }
    requires finished { HasNoActiveNode net.now work.old }
    requires exact { AreDistancesButZeros net.now
        (work_flow net.now work.old) work.old.labels.items }
    ensures { IsWork wider.now work.new }
{
    add_each(work.rooms.as_mut_slice(), more);
    tell_sides(work.labels.as_mut_slice(), net.top_label());
}

/// The sink side of the smallest least cut of the wider net, of work that is finished in the net:
/// the second cut goes on from its preflow.
fn wider_side(
    alloc: Global,
    net: &Outline,
    wider: &Outline,
    work: &mut Work,
    more: &[u64],
    order: &mut [u32],
    found: &mut [u32],
) -> Result<Vec<bool>, AllocError>
    requires limits { IsNet net.now }
    requires extras { AreExtras net.now more.now }
    requires wider { wider.now ≡ with_larger_sinks net.now more.now }
    requires work { IsWork net.now work.old }
    requires finished { HasNoActiveNode net.now work.old }
    requires exact { AreDistancesButZeros net.now
        (work_flow net.now work.old) work.old.labels.items }
    requires order { length order.old ≡ nodes net.now }
    requires found { length found.old ≡ nodes net.now }
    ensures bits { IfOk result (λ side. length side.items ≡ nodes net.now) }
    ensures smallest { IfOk result
        (λ side. IsSmallestLeastCut (with_larger_sinks net.now more.now) (set_of side.items)) }
{
    if are_none(more) {
        return least_side(alloc, net, work);
    }
    add_room(net, wider, work, more);
    maximise(alloc, wider, work, order, found)?;
    least_side(alloc, wider, work)
}

/// The sink sides of the smallest least cuts of the net and of the wider one, of work that is
/// finished in the net. The workspace takes over what it stood in.
fn cut_again(
    alloc: Global,
    net: &Outline,
    wider: &Outline,
    mut work: Work,
    more: &[u64],
    space: &mut Workspace,
) -> Result<BothSides, AllocError>
    requires limits { IsNet net.now }
    requires extras { AreExtras net.now more.now }
    requires wider { wider.now ≡ with_larger_sinks net.now more.now }
    requires work { IsWork net.now work }
    requires finished { HasNoActiveNode net.now work }
    requires exact { AreDistancesButZeros net.now (work_flow net.now work) work.labels.items }
    requires order { length space.old.order.items ≡ nodes net.now }
    requires found { length space.old.found.items ≡ nodes net.now }
    ensures lower_bits { IfOk result (λ sides. length sides.lower.items ≡ nodes net.now) }
    ensures upper_bits { IfOk result (λ sides. length sides.upper.items ≡ nodes net.now) }
    ensures lower { IfOk result (λ sides. IsSmallestLeastCut net.now (set_of sides.lower.items)) }
    ensures upper { IfOk result (λ sides. IsSmallestLeastCut
        (with_larger_sinks net.now more.now) (set_of sides.upper.items)) }
    ensures within { IfOk result (λ sides.
        LiesWithin (nodes net.now) (set_of sides.lower.items) (set_of sides.upper.items)) }
{
    let lower = least_side(alloc, net, &work)?;
    let order = space.order.as_mut_slice();
    let found = space.found.as_mut_slice();
    let upper = wider_side(alloc, net, wider, &mut work, more, order, found)?;
    space.keep(alloc, work);
    Ok(BothSides { lower, upper })
}

/// Work that is finished in a net that stands in rows, whose lists it takes over.
fn finish_laid(
    alloc: Global,
    outline: &Outline,
    laid: Laid,
    space: &mut Workspace,
) -> Result<Work, AllocError>
    requires laid { AreLaid laid }
    requires limits { IsNet (laid_net laid) }
    requires outline { outline.now ≡ laid_net laid }
    ensures limits { IsNet outline.now }
    ensures work { IfOk result (λ w. IsWork outline.now w) }
    ensures finished { IfOk result (λ w. HasNoActiveNode outline.now w) }
    ensures exact { IfOk result
        (λ w. AreDistancesButZeros outline.now (work_flow outline.now w) w.labels.items) }
    ensures order { OnOk result (length space.new.order.items ≡ nodes outline.now) }
    ensures found { OnOk result (length space.new.found.items ≡ nodes outline.now) }
{
    let rows = Rows {
        net: Outline::of_laid(&laid),
        starts: laid.starts,
        ends: laid.ends,
        cells: laid.cells,
    };
    finish(alloc, outline, rows, laid.sources, laid.sinks, space)
}

/// The sink side of the smallest least cut of a net that stands in rows, one bit for each node: the
/// lower of the sides that `both_sides_of` answers, found in the same way. Refuses for the same
/// reasons.
pub fn one_side_of(
    alloc: Global,
    laid: Laid,
    space: &mut Workspace,
) -> Result<Vec<bool>, AllocError>
    requires laid { AreLaid laid }
    requires limits { IsNet (laid_net laid) }
    ensures bits { IfOk result (λ side. length side.items ≡ nodes (laid_net laid)) }
    ensures smallest { IfOk result
        (λ side. IsSmallestLeastCut (laid_net laid) (set_of side.items)) }
{
    let outline = Outline::of_laid(&laid);
    let work = finish_laid(alloc, &outline, laid, space)?;
    let side = least_side(alloc, &outline, &work)?;
    space.keep(alloc, work);
    Ok(side)
}

/// The sink sides of the smallest least cuts of a net that stands in rows, and of the net in which
/// each node can send the sink so much more, as `more` tells. The second cut goes on from the
/// preflow of the first: what the sink has got stays, and only the excess that was left is pushed
/// again. It looks only at nodes that did not reach the sink in the first: the others count as the
/// sink itself.
///
/// Where `more` is all 0 the second costs a copy, and where no node has excess that now reaches the
/// sink one search. Refuses for the same reasons as `smallest_side_in`.
pub fn both_sides_of(
    alloc: Global,
    laid: Laid,
    more: &Vec<u64>,
    space: &mut Workspace,
) -> Result<BothSides, AllocError>
    requires laid { AreLaid laid }
    requires extras { AreExtras (laid_net laid) more.now.items }
    requires limits { IsNet (laid_net laid) }
    ensures lower_bits { IfOk result (λ sides. length sides.lower.items ≡ nodes (laid_net laid)) }
    ensures upper_bits { IfOk result (λ sides. length sides.upper.items ≡ nodes (laid_net laid)) }
    ensures lower { IfOk result
        (λ sides. IsSmallestLeastCut (laid_net laid) (set_of sides.lower.items)) }
    ensures upper { IfOk result (λ sides. IsSmallestLeastCut
        (with_larger_sinks (laid_net laid) more.now.items) (set_of sides.upper.items)) }
    ensures within { IfOk result (λ sides. LiesWithin (nodes (laid_net laid))
        (set_of sides.lower.items) (set_of sides.upper.items)) }
{
    let outline = Outline::of_laid(&laid);
    let wider = Outline::of_wider(&laid, more);
    let work = finish_laid(alloc, &outline, laid, space)?;
    cut_again(alloc, &outline, &wider, work, more, space)
}
