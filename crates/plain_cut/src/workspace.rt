//! The lists of a solver, kept from one net to the next.
ghost use Rattle.std.specs.Prelude.{◌≡◌};

use crate::work::Work;
use sink_distances::Spare;
use std::alloc::Global;
use std::collections::VecDeque;
use std::mem::replace;

/// The lists of a solver between two nets: what they stood in serves the next. What they hold does
/// not matter.
#[derive(Drop)]
pub struct Workspace {
    pub(crate) rows: Spare,
    pub(crate) labels: Vec<u32>,
    pub(crate) queue: VecDeque<u32>,
    pub(crate) order: Vec<u32>,
    pub(crate) found: Vec<u32>,
}

/// The most nodes of a net whose lists are kept, as many as a picture of 512 by 512 has: they take
/// 88 bytes a node of two arcs while the next net is made. Lists of larger nets are given back.
const KEPT_NODES: usize = 262_144;

/// The most directions, 16 bytes each, of a net whose lists are kept: those of such a picture where
/// each site has 8 neighbours.
const KEPT_CELLS: usize = 8 * KEPT_NODES;

impl Workspace {
    /// A workspace that has no lists yet. It takes no memory.
    pub fn new(alloc: Global) -> Workspace {
        Workspace {
            rows: Spare::new(alloc),
            labels: Vec::new(alloc),
            queue: VecDeque::new(alloc),
            order: Vec::new(alloc),
            found: Vec::new(alloc),
        }
    }

    /// Takes out what the rows of the last net stood in.
    pub fn take_rows(&mut self, alloc: Global) -> Spare
        ensures { result ≡ self.old.rows }
    {
        replace(&mut self.rows, Spare::new(alloc))
    }

    /// Takes the lists of work that is done, where they are kept.
    pub(crate) fn keep(&mut self, alloc: Global, work: Work) {
        if work.labels.len() > KEPT_NODES || work.rows.cells.len() > KEPT_CELLS {
            *self = Workspace::new(alloc);
            return;
        }
        let rows = work.rows;
        self.rows = Spare {
            starts: rows.starts,
            ends: rows.ends,
            cells: rows.cells,
        };
        self.labels = work.labels;
        self.queue = work.queue;
    }
}
