//! The way to cut nets by workers, and when one thread serves.
ghost use Rattle.std.specs.Prelude.{◌≡◌, ◌↔◌, ◌⊎◌, ◌*◌, ◌/◌, ◌<◌, ◌≤◌, ℕ};
ghost use Rattle.std.specs.Prelude.{◌==◌, not, IsTrue, length};
ghost use denote.Param.Send.{IsSync};
ghost use Rattle.flow_network.specs.Cut.{IsArc, Network};
ghost use Rattle.block_net.specs.Limits.{block_limit};
ghost use Rattle.worker_options.specs.declared.options.Options.{Options as OptionsOf};
ghost use Rattle.worker_options.specs.Ranges.{AreInRange};
ghost use Rattle.rounds.specs.PartCounts.{IsPartCount};
ghost use Rattle.rounds.specs.Sharing.{AreForNodes, IsLeftToOneThread, arcs_between};
ghost use Rattle.rounds.specs.Refusals.{IsParallelRefusal};
ghost use Rattle.rounds.specs.SolveErrors.{MayFailToSolve, of_parallel};

use crate::gates::Lent;
use crate::{ParallelError, side_parallel, solve_parallel};
use cut_ways::{Alone, How, Sharing, SolveError};
use flow_network::{Arc, Net, Solved};
use part_threads::ByThreads;
use std::alloc::Global;
use std::sync::Wait;
use std::thread::Threads;
use worker_options::{Gate, Options};

/// The fewest sites that several threads close in by parts: fewer take less time on one thread than
/// the start of the others.
const SHARED_SITES: usize = 20_000;

/// How many parts of a move a thread has, where there are more than two. What is left open near
/// their borders grows with their number; fewer leave threads idle at the end, since parts take
/// unequal time. Of two threads each has one part: there the borders outweigh the rest.
const THREAD_PARTS: usize = 2;

/// The fewest nodes of a net that workers share: they take longer to share fewer than one thread
/// takes to cut them.
const SHARED_NODES: usize = 1 << 12;

/// The fewest nodes a block of a net that workers share.
const BLOCK_NODES: usize = 1 << 8;

/// Of so many arcs of a net that workers share at most one leads from block to block: with more
/// they pass excess to and fro.
const CROSSED_SHARE: usize = 8;

/// How many nodes of a net there are at least for each turn that is drawn in a round.
const TURN_NODES: usize = 1 << 6;

/// How many nodes of a net there are at least for each round, of which there is one in any net.
const ROUND_NODES: usize = 1 << 13;

/// By workers that run side by side over the blocks of a net. It refuses where memory runs out,
/// where the system does not start a worker, and where a number of the options is out of its range.
#[derive(Drop)]
pub struct Workers<'a, R, G> {
    /// What starts threads.
    pub rt: &'a R,
    /// How workers share a net.
    pub options: Options,
    /// What a worker asks before each turn.
    pub gate: &'a G,
}

/// Whether a net of so many nodes is small, or its blocks are.
fn is_small(nodes: usize, blocks: usize) -> bool
    ensures { IsTrue result ↔ (nodes < 4096) ⊎ (nodes / 256 < blocks) }
{
    nodes < SHARED_NODES || nodes / BLOCK_NODES < blocks
}

/// The block of a node, where a net of so many nodes is split into so many blocks.
fn node_block_of(nodes: usize, blocks: usize, node: u32) -> usize
    requires node { node < nodes }
    requires blocks { blocks ≤ block_limit }
    ensures { result ≡ node * blocks / nodes }
{
    node as usize * blocks / nodes
}

/// Whether an arc leads from one block to another.
fn is_between(nodes: usize, blocks: usize, arc: &Arc) -> bool
    requires arc { IsArc nodes arc.now }
    requires blocks { blocks ≤ block_limit }
    ensures { result
        ≡ not (arc.now.from * blocks / nodes == arc.now.to * blocks / nodes) }
{
    node_block_of(nodes, blocks, arc.from) != node_block_of(nodes, blocks, arc.to)
}

/// How many arcs of a net lead from one block to another, where it is split into so many.
fn count_between(net: &Net, blocks: usize) -> usize
    requires { blocks ≤ block_limit }
    ensures { result ≡ arcs_between net.now blocks }
{
    let nodes = net.nodes();
    let mut between = 0;
    for arc in net.arcs() {
        if is_between(nodes, blocks, arc) {
            between += 1;
        }
    }
    between
}

/// Whether many arcs of a net lead from one block to another, where it is split into so many.
fn is_crossed(net: &Net, blocks: usize) -> bool
    requires { blocks ≤ block_limit }
    ensures { IsTrue result ↔ length net.now.arcs / 8 < arcs_between net.now blocks }
{
    count_between(net, blocks) > net.arcs().len() / CROSSED_SHARE
}

/// Whether a net is cut by one thread: there is one alone, the net or its blocks are small, or too
/// many arcs lead between blocks. Options out of their ranges are left to the workers, who refuse
/// them.
fn is_alone(net: &Net, options: &Options) -> bool
    ensures { IsTrue result ↔ AreInRange options.now × IsLeftToOneThread net.now options.now }
{
    if options.check().is_err() {
        return false;
    }
    let blocks = options.blocks as usize;
    options.threads < 2 || is_small(net.nodes(), blocks) || is_crossed(net, blocks)
}

/// The options by which workers share a net of so many nodes: few nodes are not worth many rounds,
/// nor many turns in a round. Options out of their ranges stay as they are.
fn options_for(nodes: usize, options: &Options) -> Options
    ensures { AreForNodes nodes options.now result }
{
    if options.check().is_err() {
        return *options;
    }
    let turns = nodes / TURN_NODES;
    let rounds = (nodes / ROUND_NODES).max(1);
    Options {
        turns: (options.turns as usize).min(turns) as u32,
        rounds: (options.rounds as usize).min(rounds) as u32,
        ..*options
    }
}

/// The refusal of a cut, as a way to cut nets has it.
fn refusal_of(error: ParallelError) -> SolveError
    ensures told { result ≡ of_parallel error }
    ensures may { (net : Network) (count : ℕ) (whole options : OptionsOf)
        → AreForNodes count whole options → IsParallelRefusal net options error
        → MayFailToSolve whole result }
{
    match error {
        ParallelError::OutOfMemory => SolveError::OutOfMemory,
        ParallelError::Workers => SolveError::Workers,
        ParallelError::BadOptions => SolveError::BadOptions,
    }
}

impl<'a, R: Threads + Wait + Sync> How for Workers<'a, R, &'a (dyn Gate + Sync)> {
    ghost ready = { λ _. IsSync R.row };

    ghost refuses = { λ how e. MayFailToSolve how.options e };

    fn solve(&self, alloc: Global, net: &Net) -> Result<Solved, SolveError> {
        if is_alone(net, &self.options) {
            return Alone.solve(alloc, net);
        }
        let gate = Lent { gate: *self.gate };
        let options = options_for(net.nodes(), &self.options);
        match solve_parallel(self.rt, alloc, net, &options, &gate) {
            Ok(solved) => Ok(solved),
            Err(error) => Err(refusal_of(error)),
        }
    }

    fn side(&self, alloc: Global, net: Net) -> Result<Vec<bool>, SolveError> {
        if is_alone(&net, &self.options) {
            return Alone.side(alloc, net);
        }
        let gate = Lent { gate: *self.gate };
        let options = options_for(net.nodes(), &self.options);
        match side_parallel(self.rt, alloc, net, &options, &gate) {
            Ok(side) => Ok(side),
            Err(error) => Err(refusal_of(error)),
        }
    }
}

impl<'a, R: Threads + Wait + Sync> Sharing for Workers<'a, R, &'a (dyn Gate + Sync)> {
    type Fork = ByThreads<'a, R>;

    /// Two parts a thread, of two threads one, and one part in all where there is one thread or
    /// where there are few sites: one thread closes these in before others have started.
    fn parts(&self, sites: usize) -> usize
        ensures some { 0 < result }
        ensures count { IsPartCount self.now.options sites result }
    {
        if sites < SHARED_SITES || self.options.threads < 2 {
            return 1;
        }
        if self.options.threads == 2 {
            return 2;
        }
        THREAD_PARTS * self.options.threads as usize
    }

    /// Parts are done by as many threads as the options tell.
    fn fork(&self) -> ByThreads<'a, R>
        requires ready { IsSync R.row }
        ensures able { IsSync R.row }
        ensures threads { result.threads ≡ self.now.options.threads }
    {
        ByThreads {
            rt: self.rt,
            threads: self.options.threads as usize,
        }
    }

    /// Workers share the net that the strips of a move leave, if it is large and there are two or
    /// more.
    fn shares_nets(&self) -> bool
        ensures { IsTrue result ↔ (1 < self.now.options.threads) }
    {
        self.options.threads > 1
    }
}
