//! Labels that a block finds by itself, and then by what other blocks tell.
ghost use Rattle.std.specs.Prelude.{◌≡◌, ◌↔◌, ◌+◌, ◌<◌, ◌≤◌, ℕ, [], length, replicate};
ghost use Rattle.std.specs.Prelude.{IfNone, IfOk, IfSome, IsFalse, IsTrue};
ghost use Rattle.std.specs.Prelude.{slice_index, slice_index_or};
ghost use Rattle.std.specs.List.Sorted.{IsNonDecreasingBy};
ghost use Rattle.flow_network.specs.Cut.{nodes};
ghost use Rattle.block_net.specs.Views.{count, lane_in, room_in};
ghost use Rattle.block_net.specs.Whole.{block_at};
ghost use Rattle.block_split.specs.Split.{whole_of};
ghost use Rattle.net_in_blocks.specs.Views.{IsLaid};
ghost use Rattle.sink_distances.specs.Search.{found_of};
ghost use Rattle.global_relabel.specs.Lowering.{whole_in};
ghost use Rattle.global_relabel.specs.Lowering.{AreLengthsWithin, AreOffersBelow, AreOffersMet};
ghost use Rattle.global_relabel.specs.Lowering.{AreOffersTo, IsLowerSomewhere};
ghost use Rattle.global_relabel.specs.Lowering.{AreOffersTold, AreTight, AreTightBeyond};
ghost use Rattle.global_relabel.specs.Lowering.{ComeDown, FallsTo, IsAboveTold, IsAllowedBy};
ghost use Rattle.global_relabel.specs.Lowering.{IsBorderOffered, IsOfferAt, IsQueue};
ghost use Rattle.global_relabel.specs.Lowering.{IsReadyFor, IsTightBehind, IsTightUpTo};
ghost use Rattle.global_relabel.specs.Lowering.{StepsWithin};

use crate::exactness::{NetBlocks, far_node};
use block_net::Cells;
use block_split::Parts;
use flow_network::Net;
use std::alloc::{AllocError, Global};
use std::marker::Model;

/// A label that a node of another block offers to a node: one more than its own.
#[derive(Clone, Copy)]
pub struct Offer {
    pub label: u32,
    pub place: u32,
}

/// The labels of one block's nodes in a search for exact labels that all blocks make side by side.
/// They begin as the lengths of paths within the block, and come down by what other blocks tell.
/// Contracts see them as a list.
#[derive(Drop)]
pub struct BlockLabels {
    labels: Vec<u32>,
    queue: Vec<u32>,
    offers: Vec<Offer>,
}

impl Model for BlockLabels {
    ghost use Rattle.std.specs.Prelude.{◌≡◌, ℕ, List, length};

    ghost Value = { List ℕ };

    ghost view = { λ b. b.labels.items };

    ghost invariant = { λ b. length b.queue.items ≡ length b.labels.items };
}

/// A node gets a label, if it is below its own, and then goes to the end of the queue. Answers the
/// end of the queue.
fn lower(labels: &mut [u32], queue: &mut [u32], end: usize, place: u32, label: u32) -> usize
    requires node { place < length labels.old }
    requires ready { IsReadyFor label (found_of labels.old queue.old end) }
    ensures falls { FallsTo label (λ v. v ≡ place) (found_of labels.old queue.old end)
        (found_of labels.new queue.new result) }
    ensures few { result ≤ end + 1 }
    ensures low { slice_index labels.new place ≤ label }
{
    if labels[place as usize] <= label {
        return end;
    }
    labels[place as usize] = label;
    queue[end] = place;
    end + 1
}

/// The nodes of the block that can give the sink get the label 1, and all others the top one.
/// Answers the end of the queue.
fn lower_rooms(cells: &Cells, labels: &mut [u32], queue: &mut [u32]) -> usize
    requires labels { length labels.old ≡ count cells.now }
    requires queue { length queue.old ≡ count cells.now }
    ensures falls { FallsTo 1 (λ p. 0 < room_in cells.now p)
        (found_of (replicate (count cells.now) cells.now.top) queue.old 0)
        (found_of labels.new queue.new result) }
    ensures sink { (p : ℕ) → p < count cells.now → 0 < room_in cells.now p
        → slice_index labels.new p ≤ 1 }
{
    labels.fill(cells.top());
    let mut end = 0;
    'nodes: for place in 0..cells.len() {
        if cells.room(place) > 0 {
            end = lower(labels, queue, end, place as u32, 1);
        }
    }
    end
}

/// The node that a direction within the block leads to gets a label, if that is below its own and
/// the opposite direction can carry more.
fn lower_far(
    cells: &Cells,
    j: usize,
    labels: &mut [u32],
    queue: &mut [u32],
    end: usize,
    label: u32,
) -> usize
    requires place { j < length cells.now.lanes }
    requires opposite { (lane_in cells.now j).opposite < length cells.now.lanes }
    requires node { (lane_in cells.now j).far < length labels.old }
    requires ready { IsReadyFor label (found_of labels.old queue.old end) }
    ensures falls { FallsTo label
        (λ v. (v ≡ (lane_in cells.now j).far)
        × (0 < (lane_in cells.now (lane_in cells.now j).opposite).residual))
        (found_of labels.old queue.old end) (found_of labels.new queue.new result) }
    ensures low { 0 < (lane_in cells.now (lane_in cells.now j).opposite).residual
        → slice_index labels.new (lane_in cells.now j).far ≤ label }
{
    let lane = cells.lane(j);
    if labels[lane.far as usize] <= label || cells.lane(lane.opposite as usize).residual == 0 {
        return end;
    }
    lower(labels, queue, end, lane.far, label)
}

/// Each node of the block from which a residual direction leads to the node gets a label one above
/// the node's, if that is below its own.
fn lower_behind(
    split: &NetBlocks<'_>,
    block: usize,
    place: usize,
    labels: &mut [u32],
    queue: &mut [u32],
    mut end: usize,
) -> usize
    requires laid { IsLaid (whole_in split.now) }
    requires block { block < length split.now.parts.now.blocks.items }
    requires labels { length labels.old ≡ count (block_at (whole_in split.now) block) }
    requires place { place < length labels.old }
    requires ready { IsReadyFor (slice_index labels.old place + 1)
        (found_of labels.old queue.old end) }
    ensures falls { FallsTo (slice_index labels.old place + 1)
        (λ v. StepsWithin (whole_in split.now) block v place)
        (found_of labels.old queue.old end) (found_of labels.new queue.new result) }
    ensures tight { IsTightBehind (whole_in split.now) block labels.new place }
{
    let cells = &split.parts.blocks[block];
    let label = labels[place].saturating_add(1);
    let range = cells.range(place);
    'lanes: for j in range.0..range.1 {
        end = lower_far(cells, j, labels, queue, end, label);
    }
    end
}

/// Whether an offer is next: its label is at most one above that of the next node of the queue, so
/// that its node stands in the queue before those of higher labels.
fn is_offer_next(
    offers: &[Offer],
    taken: usize,
    labels: &[u32],
    queue: &[u32],
    end: usize,
    next: usize,
) -> bool
    requires queue { IsQueue (found_of labels.now queue.now end) }
    ensures some { IsTrue result → taken < length offers.now }
    ensures low { IsTrue result → next < end → (d : Offer) →
        (slice_index_or offers.now taken d).label
        ≤ slice_index labels.now (slice_index queue.now next) + 1 }
    ensures none { IsFalse result → end ≤ next → length offers.now ≤ taken }
    ensures high { IsFalse result → next < end → taken < length offers.now → (d : Offer) →
        slice_index labels.now (slice_index queue.now next) + 1
        < (slice_index_or offers.now taken d).label }
{
    if taken >= offers.len() {
        return false;
    }
    next >= end || offers[taken].label <= labels[queue[next] as usize].saturating_add(1)
}

/// Labels come down from nodes of the queue and from offers until they are tight, both by rising
/// labels: a label is final when it is given, as in a breadth-first search. So each node stands in
/// the queue once at most.
fn spread(
    split: &NetBlocks<'_>,
    block: usize,
    offers: &[Offer],
    labels: &mut [u32],
    queue: &mut [u32],
    mut end: usize,
)
    requires laid { IsLaid (whole_in split.now) }
    requires block { block < length split.now.parts.now.blocks.items }
    requires labels { length labels.old ≡ count (block_at (whole_in split.now) block) }
    requires offers { AreOffersTo (length labels.old) offers.now }
    requires rising { IsNonDecreasingBy (λ offer. offer.label) offers.now }
    requires ready { IsReadyFor 1 (found_of labels.old queue.old end) }
    ensures room { length queue.new ≡ length labels.new }
    ensures down { ComeDown (whole_in split.now) block
        (IsAllowedBy offers.now) labels.old labels.new }
    ensures tight { let w = whole_in split.now in
        IsTightUpTo w block 0 (found_of labels.old queue.old end) → AreTight w block labels.new }
    ensures met { AreOffersMet offers.now labels.new }
{
    let mut next = 0;
    let mut taken = 0;
    'search: for turn in 0..queue.len() + offers.len() {
        if is_offer_next(offers, taken, labels, queue, end, next) {
            let offer = offers[taken];
            end = lower(labels, queue, end, offer.place, offer.label);
            taken += 1;
        } else if next < end {
            let place = queue[next] as usize;
            end = lower_behind(split, block, place, labels, queue, end);
            next += 1;
        } else {
            return;
        }
    }
}

/// What the end of a residual direction to another block offers to the block's node, if that is
/// below the node's label. `told` has the labels of all nodes that blocks told.
fn offer_at(
    split: &NetBlocks<'_>,
    block: usize,
    j: usize,
    labels: &[u32],
    told: &[u32],
) -> Option<Offer>
    requires laid { IsLaid (whole_in split.now) }
    requires block { block < length split.now.parts.now.blocks.items }
    requires place { let w = whole_in split.now in j < length (block_at w block).borders }
    requires labels { length labels.now ≡ count (block_at (whole_in split.now) block) }
    requires told { length told.now ≡ nodes split.now.net.now }
    ensures some { IfSome result (λ offer. IsOfferAt (whole_in split.now) block told.now j offer
        × (offer.label < slice_index labels.now offer.place)) }
    ensures none { let w = whole_in split.now in
        IfNone result (IsBorderOffered w block labels.now told.now [] j) }
{
    let border = split.parts.blocks[block].border(j);
    if border.residual == 0 {
        return None;
    }
    let label = told[far_node(split.parts, &border)].saturating_add(1);
    if labels[border.near as usize] <= label {
        return None;
    }
    Some(Offer {
        label,
        place: border.near,
    })
}

/// Lists what the ends of residual directions to other blocks offer to the block's nodes, below
/// their own labels. An offer for which the list has no room is taken at once. Whether one was.
fn list_offers(
    split: &NetBlocks<'_>,
    block: usize,
    told: &[u32],
    labels: &mut [u32],
    queue: &mut [u32],
    offers: &mut Vec<Offer>,
) -> bool
    requires laid { IsLaid (whole_in split.now) }
    requires block { block < length split.now.parts.now.blocks.items }
    requires labels { length labels.old ≡ count (block_at (whole_in split.now) block) }
    requires room { length queue.old ≡ length labels.old }
    requires told { length told.now ≡ nodes split.now.net.now }
    ensures room { length queue.new ≡ length labels.new }
    ensures down { let w = whole_in split.now in
        ComeDown w block (IsAboveTold w block told.now) labels.old labels.new }
    ensures tight { let w = whole_in split.now in
        AreTight w block labels.old → AreTight w block labels.new }
    ensures offers { AreOffersTo (length labels.new) offers.new.items }
    ensures told { AreOffersTold (whole_in split.now) block told.now offers.new.items }
    ensures all { let w = whole_in split.now in (j : ℕ) → j < length (block_at w block).borders
        → IsBorderOffered w block labels.new told.now offers.new.items j }
    ensures below { AreOffersBelow labels.old offers.new.items }
    ensures lower { IsTrue result → IsLowerSomewhere labels.old labels.new }
    ensures same { IsFalse result → labels.new ≡ labels.old }
{
    offers.clear();
    let mut has_taken = false;
    'borders: for j in 0..split.parts.blocks[block].borders() {
        if let Some(offer) = offer_at(split, block, j, labels, told) {
            if offers.len() < offers.capacity() {
                offers.push_reserved(offer);
            } else {
                spread(split, block, &[offer], labels, queue, 0);
                has_taken = true;
            }
        }
    }
    has_taken
}

impl BlockLabels {
    /// Lists for the block, 8 bytes a node and 8 for each direction to another block. They serve as
    /// long as it has as many of both. Refuses only where memory runs out.
    pub fn reserve(alloc: Global, cells: &Cells) -> Result<BlockLabels, AllocError>
        ensures { IfOk result (λ labels. length labels ≡ count cells.now) }
    {
        Ok(BlockLabels {
            labels: vec![in alloc; 0; cells.len()]?,
            queue: vec![in alloc; 0; cells.len()]?,
            offers: Vec::with_capacity(alloc, cells.borders())?,
        })
    }

    /// How many nodes the block has.
    pub fn len(&self) -> usize
        ensures { result ≡ length self.now }
    {
        self.labels.len()
    }

    /// Finds the labels by paths within the block alone. Takes no memory.
    pub fn search(&mut self, net: &Net, parts: &Parts, block: usize)
        requires laid { IsLaid (whole_of net.now parts.now) }
        requires block { block < length parts.now.blocks.items }
        requires len { length self.old ≡ count (block_at (whole_of net.now parts.now) block) }
        ensures len { length self.new ≡ length self.old }
        ensures sink { let cells = block_at (whole_of net.now parts.now) block in
            (p : ℕ) → p < count cells → 0 < room_in cells p → slice_index self.new p ≤ 1 }
        ensures tight { AreTight (whole_of net.now parts.now) block self.new }
        ensures lengths { AreLengthsWithin (whole_of net.now parts.now) block self.new }
    {
        let split = NetBlocks { net, parts };
        let labels = self.labels.as_mut_slice();
        let queue = self.queue.as_mut_slice();
        let end = lower_rooms(&parts.blocks[block], labels, queue);
        spread(&split, block, &[], labels, queue, end);
    }

    /// Brings the labels down by paths that begin with a direction to another block, whose far end
    /// has the label that was told. Whether a label fell. Takes no memory.
    pub fn search_on(&mut self, net: &Net, parts: &Parts, block: usize, told: &[u32]) -> bool
        requires laid { IsLaid (whole_of net.now parts.now) }
        requires block { block < length parts.now.blocks.items }
        requires len { length self.old ≡ count (block_at (whole_of net.now parts.now) block) }
        requires told { length told.now ≡ nodes net.now }
        ensures len { length self.new ≡ length self.old }
        ensures falls { (p : ℕ) → slice_index self.new p ≤ slice_index self.old p }
        ensures tight { let w = whole_of net.now parts.now in
            AreTight w block self.old → AreTight w block self.new }
        ensures beyond { AreTightBeyond (whole_of net.now parts.now) block told.now self.new }
        ensures down { let w = whole_of net.now parts.now in
            ComeDown w block (IsAboveTold w block told.now) self.old self.new }
        ensures lower { IsTrue result ↔ IsLowerSomewhere self.old self.new }
    {
        let split = NetBlocks { net, parts };
        let labels = self.labels.as_mut_slice();
        let queue = self.queue.as_mut_slice();
        let offers = &mut self.offers;
        let has_taken = list_offers(&split, block, told, labels, queue, offers);
        if offers.is_empty() && !has_taken {
            return false;
        }
        offers.sort_unstable_by_key(|offer| offer.label);
        spread(&split, block, offers.as_slice(), labels, queue, 0);
        true
    }

    /// Writes the labels to their places in a list of those of all nodes. `first` is the block's
    /// first node.
    pub fn tell(&self, first: usize, labels: &mut [u32])
        requires { (p : ℕ) → p < length self.now → first + p < length labels.old }
        ensures len { length labels.new ≡ length labels.old }
        ensures told { (p : ℕ) → p < length self.now
            → slice_index labels.new (first + p) ≡ slice_index self.now p }
        ensures below { (v : ℕ) → v < first → slice_index labels.new v ≡ slice_index labels.old v }
        ensures above { (v : ℕ) → first + length self.now ≤ v
            → slice_index labels.new v ≡ slice_index labels.old v }
    {
        let told = self.labels.as_slice();
        'nodes: for place in 0..told.len() {
            labels[first + place] = told[place];
        }
    }
}
