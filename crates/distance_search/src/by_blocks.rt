//! Exact labels, which the blocks of a state find side by side.
ghost use Rattle.std.specs.Prelude.{◌≡◌, ◌↔◌, ◌<◌, ℕ, IfOk, IfSome, IsFalse, IsTrue, length};
ghost use Rattle.std.specs.Prelude.{slice_index_or};
ghost use Rattle.flow_network.specs.Cut.{nodes};
ghost use Rattle.block_events.specs.Reach.{AreExact};
ghost use Rattle.block_split.specs.Split.{whole_of};
ghost use Rattle.net_in_blocks.specs.Views.{IsLaid};
ghost use Rattle.distance_search.specs.LabelSearches.{AreQuiet, AreSharesOf, AreTested};

use block_split::Parts;
use block_state::State;
use flow_network::Net;
use global_relabel::{BlockLabels, is_block_exact};
use std::alloc::{AllocError, Global};
use std::thread;
use std::thread::Threads;

/// The most times that the blocks tell one another their labels in a search. A path that goes from
/// block to block more often leaves the search to one thread.
const STEP_LIMIT: usize = 100;

/// A block's share in a search: the labels that its nodes have so far, whether they changed since
/// they were told, and whether they were found exact.
#[derive(Drop)]
pub struct Share {
    pub labels: BlockLabels,
    pub has_news: bool,
    pub is_exact: bool,
}

/// The threads that search, of which there are so many at most.
#[derive(Drop)]
pub(crate) struct Crew<'a, R> {
    pub(crate) rt: &'a R,
    pub(crate) threads: usize,
}

/// Whether each list has as many labels as its block has nodes.
fn fits(parts: &Parts, shares: &[Share]) -> bool
    ensures { IsTrue result → AreSharesOf parts.now.blocks.items shares.now }
{
    if shares.len() != parts.blocks.len() {
        return false;
    }
    'each: for b in 0..shares.len() {
        if shares[b].labels.len() != parts.blocks[b].len() {
            return false;
        }
    }
    true
}

/// Each block finds labels by paths within it, side by side.
fn search_all<R: Threads + Sync>(crew: &Crew<'_, R>, net: &Net, parts: &Parts, shares: &mut [Share])
    requires threads { 0 < crew.now.threads }
    requires laid { IsLaid (whole_of net.now parts.now) }
    requires shares { AreSharesOf parts.now.blocks.items shares.old }
    ensures { AreSharesOf parts.now.blocks.items shares.new }
{
    thread::for_each_mut(
        crew.rt,
        shares,
        crew.threads,
        &|block, share| {
            share.labels.search(net, parts, block);
            share.has_news = true;
        },
    );
}

/// Each block brings its labels down by what others told, side by side.
fn search_all_on<R: Threads + Sync>(
    crew: &Crew<'_, R>,
    net: &Net,
    parts: &Parts,
    told: &[u32],
    shares: &mut [Share],
)
    requires threads { 0 < crew.now.threads }
    requires laid { IsLaid (whole_of net.now parts.now) }
    requires told { length told.now ≡ nodes net.now }
    requires shares { AreSharesOf parts.now.blocks.items shares.old }
    ensures { AreSharesOf parts.now.blocks.items shares.new }
{
    thread::for_each_mut(
        crew.rt,
        shares,
        crew.threads,
        &|block, share| share.has_news = share.labels.search_on(net, parts, block, told),
    );
}

/// Each block tells its labels, where they changed; whether any did.
fn tell_all(net: &Net, parts: &Parts, shares: &[Share], labels: &mut [u32]) -> bool
    requires laid { IsLaid (whole_of net.now parts.now) }
    requires shares { AreSharesOf parts.now.blocks.items shares.now }
    requires labels { length labels.old ≡ nodes net.now }
    ensures labels { length labels.new ≡ length labels.old }
    ensures quiet { IsFalse result → AreQuiet shares.now }
    ensures same { IsFalse result → labels.new ≡ labels.old }
{
    let mut has_news = false;
    'each: for b in 0..shares.len() {
        if shares[b].has_news {
            shares[b].labels.tell(parts.firsts[b], labels);
            has_news = true;
        }
    }
    has_news
}

/// Each block tests whether the labels of its nodes are exact, side by side.
fn test_all<R: Threads + Sync>(
    crew: &Crew<'_, R>,
    state: &State,
    labels: &[u32],
    shares: &mut [Share],
)
    requires threads { 0 < crew.now.threads }
    requires labels { length labels.now ≡ nodes state.now.net }
    requires shares { length shares.old ≡ state.now.blocks }
    ensures { AreTested state.now labels.now shares.new }
{
    thread::for_each_mut(
        crew.rt,
        shares,
        crew.threads,
        &|block, share| share.is_exact = is_block_exact(state, block, labels),
    );
}

/// Whether each block found its labels exact.
fn all_exact(shares: &[Share]) -> bool
    ensures { IsTrue result ↔ ((b : ℕ) (d : Share) → b < length shares.now
        → IsTrue (slice_index_or shares.now b d).is_exact) }
{
    for share in shares {
        if !share.is_exact {
            return false;
        }
    }
    true
}

/// Whether the labels are exact, which each block tests for its nodes, side by side.
fn are_exact<R: Threads + Sync>(
    crew: &Crew<'_, R>,
    state: &State,
    shares: &mut [Share],
    labels: &[u32],
) -> bool
    requires threads { 0 < crew.now.threads }
    requires labels { length labels.now ≡ nodes state.now.net }
    requires shares { length shares.old ≡ state.now.blocks }
    ensures { IsTrue result → AreExact state.now labels.now }
{
    let _sound = state.blocks();
    test_all(crew, state, labels, shares);
    all_exact(shares)
}

/// Finds labels by blocks, side by side: each searches within itself, and then again from what
/// others told, until no label changes. Whether the labels were then found to be exact.
pub(crate) fn search_by_blocks<R: Threads + Sync>(
    crew: &Crew<'_, R>,
    state: &State,
    shares: &mut [Share],
    labels: &mut [u32],
) -> bool
    requires threads { 0 < crew.now.threads }
    requires labels { length labels.old ≡ nodes state.now.net }
    ensures labels { length labels.new ≡ length labels.old }
    ensures exact { IsTrue result → AreExact state.now labels.new }
{
    let net = state.net();
    let parts = state.parts();
    if !fits(parts, shares) {
        return false;
    }
    search_all(crew, net, parts, shares);
    'steps: for _step in 0..STEP_LIMIT {
        if !tell_all(net, parts, shares, labels) {
            return are_exact(crew, state, shares, labels);
        }
        search_all_on(crew, net, parts, labels, shares);
    }
    false
}

/// Lists for the labels of each block. The only error is that memory runs out.
pub(crate) fn reserve_shares(alloc: Global, parts: &Parts) -> Result<Vec<Share>, AllocError>
    ensures { IfOk result (λ shares. AreSharesOf parts.now.blocks.items shares.items) }
{
    let mut shares = Vec::with_capacity(alloc, parts.blocks.len())?;
    for b in 0..parts.blocks.len() {
        let labels = BlockLabels::reserve(alloc, &parts.blocks[b])?;
        shares.push(Share {
            labels,
            has_news: false,
            is_exact: false,
        })?;
    }
    Ok(shares)
}

/// The exact label of each node of a state, found by its blocks side by side. None where a way to
/// the sink goes from block to block so often that one thread is to find them (`distances`).
/// Messages may be on the way.
///
/// A thread that the system does not start leaves its blocks to the one that asked for it. Refuses
/// only where memory runs out.
pub fn distances_by_blocks<R: Threads + Sync>(
    rt: &R,
    alloc: Global,
    state: &State,
    threads: usize,
) -> Result<Option<Vec<u32>>, AllocError>
    requires { 0 < threads }
    ensures { IfOk result (λ found. IfSome found (λ labels. AreExact state.now labels.items)) }
{
    let mut shares = reserve_shares(alloc, state.parts())?;
    let mut labels = vec![in alloc; 0; state.nodes()]?;
    if search_by_blocks(
        &Crew { rt, threads },
        state,
        shares.as_mut_slice(),
        labels.as_mut_slice(),
    ) {
        Ok(Some(labels))
    } else {
        Ok(None)
    }
}
