//! Nodes in buckets, the highest first, and nodes that are set aside.
ghost use Rattle.std.specs.Prelude.{◌≡◌, ◌↔◌, IsTrue, IsFalse, ◌+◌, ◌-◌, ◌^◌, ◌<◌, ◌≤◌, IfOk};
ghost use Rattle.std.specs.Prelude.{MatchOption, length, replicate};
ghost use Rattle.node_buckets.specs.Standing.{BucketsView, row_count, row_in, aside, nowhere};
ghost use Rattle.node_buckets.specs.Standing.{bucket_of, with_node_in_row, without_nodes, IsEmpty};
ghost use Rattle.node_buckets.specs.Standing.{IsHighest, AreBucketsEmpty, IsRestored};

use crate::circles::{alone, part, relink, unlink};
use std::alloc::{AllocError, Global};
use std::marker::Model;

/// Nodes that stand in buckets, each in one row: its bucket's, or that of the nodes set aside; or
/// that stand nowhere.
#[derive(Drop)]
pub struct Buckets {
    /// No node stands in a higher bucket.
    top: u32,
    buckets: u32,
    rows: Vec<u32>,
    /// Of each node, and after those of the place of each row, what stands after it and before it.
    next: Vec<u32>,
    prev: Vec<u32>,
}

impl Model for Buckets {
    ghost use Rattle.node_buckets.specs.Standing.{BucketsView, AreRows};

    ghost Value = { BucketsView };

    ghost view = { λ b. record { buckets = b.buckets; rows = b.rows.items } };

    ghost invariant = { λ b. AreRows b.top b.buckets b.rows.items b.next.items b.prev.items };
}

/// The highest bucket that may have nodes, where one joins a row.
fn top_with(top: u32, row: u32, buckets: u32) -> u32
    requires { top < buckets }
    ensures low { top ≤ result }
    ensures high { result < buckets }
    ensures covers { row < buckets → row ≤ result }
{
    if row < buckets {
        u32::max(top, row)
    } else {
        top
    }
}

impl Buckets {
    /// So many buckets for so many nodes, of which each stands nowhere. Takes 12 bytes a node and 8
    /// a bucket, and 8 more. Refuses only where memory runs out; no other call takes memory.
    pub fn new(alloc: Global, nodes: usize, buckets: u32) -> Result<Buckets, AllocError>
        requires some { 0 < buckets }
        requires small { nodes + buckets < 2 ^ 32 - 1 }
        ensures { IfOk result (λ made.
            made ≡ record { buckets = buckets; rows = replicate nodes (buckets + 1) }) }
    {
        let places = nodes + buckets as usize + 1;
        Ok(Buckets {
            top: 0,
            buckets,
            rows: vec![in alloc; buckets + 1; nodes]?,
            next: alone(alloc, places)?,
            prev: alone(alloc, places)?,
        })
    }

    /// How many nodes there are.
    pub fn len(&self) -> usize
        ensures { result ≡ row_count self.now }
    {
        self.rows.len()
    }

    /// How many buckets there are.
    pub fn buckets(&self) -> u32
        ensures value { result ≡ self.now.buckets }
        ensures some { 0 < result }
        ensures small { row_count self.now + result < 2 ^ 32 }
    {
        let _rows = &self.rows;
        self.buckets
    }

    /// Whether a node stands in a bucket or aside.
    pub fn stands(&self, node: usize) -> bool
        requires { node < row_count self.now }
        ensures { IsFalse result ↔ (row_in self.now node ≡ nowhere self.now) }
    {
        self.rows[node] != self.buckets + 1
    }

    /// Whether a node is set aside.
    pub fn is_aside(&self, node: usize) -> bool
        requires { node < row_count self.now }
        ensures { IsTrue result ↔ (row_in self.now node ≡ aside self.now) }
    {
        self.rows[node] == self.buckets
    }

    /// A node goes to a row.
    fn stand(&mut self, node: usize, row: u32)
        requires node { node < row_count self.old }
        requires row { row ≤ aside self.old }
        ensures { self.new ≡ with_node_in_row self.old node row }
    {
        let place = self.rows.len() + row as usize;
        relink(
            self.next.as_mut_slice(),
            self.prev.as_mut_slice(),
            place,
            node,
        );
        self.rows[node] = row;
        self.top = top_with(self.top, row, self.buckets);
    }

    /// A node stands in the bucket of a label, wherever it stood: that of the label's number, or
    /// the last one.
    pub fn put(&mut self, node: usize, label: u32)
        requires { node < row_count self.old }
        ensures { self.new ≡ with_node_in_row self.old node (bucket_of self.old label) }
    {
        let last = self.buckets() - 1;
        self.stand(node, u32::min(label, last));
    }

    /// A node stands nowhere.
    pub fn remove(&mut self, node: usize)
        requires { node < row_count self.old }
        ensures { self.new ≡ with_node_in_row self.old node (nowhere self.old) }
    {
        unlink(self.next.as_mut_slice(), self.prev.as_mut_slice(), node);
        self.rows[node] = self.buckets + 1;
    }

    /// A node is set aside, wherever it stood.
    pub fn set_aside(&mut self, node: usize)
        requires { node < row_count self.old }
        ensures { self.new ≡ with_node_in_row self.old node (aside self.old) }
    {
        let row = self.buckets();
        self.stand(node, row);
    }

    /// The node of a row that joined it last.
    fn first(&self, row: u32) -> Option<usize>
        requires { row ≤ aside self.now }
        ensures { MatchOption result (IsEmpty self.now row)
            (λ v. (v < row_count self.now) × (row_in self.now v ≡ row)) }
    {
        let first = self.next[self.rows.len() + row as usize] as usize;
        if first < self.rows.len() {
            Some(first)
        } else {
            None
        }
    }

    /// The node that was set aside last.
    pub fn first_aside(&self) -> Option<usize>
        ensures { MatchOption result (IsEmpty self.now (aside self.now))
            (λ v. (v < row_count self.now) × (row_in self.now v ≡ aside self.now)) }
    {
        self.first(self.buckets())
    }

    /// A node of the highest bucket with nodes, the one that joined it last; none where no bucket
    /// has a node. It passes over the empty buckets above it, each once until a node stands there
    /// again.
    pub fn highest(&mut self) -> Option<usize>
        ensures same { self.new ≡ self.old }
        ensures highest { MatchOption result (AreBucketsEmpty self.old) (IsHighest self.old) }
    {
        let top = self.top;
        'buckets: for step in 0..top + 1 {
            let bucket = top - step;
            if let Some(node) = self.first(bucket) {
                self.top = bucket;
                return Some(node);
            }
        }
        self.top = 0;
        None
    }

    /// Each node that is set aside stands in the bucket of its label again.
    pub fn restore_aside(&mut self, labels: &[u32])
        requires { length labels.now ≡ row_count self.old }
        ensures { IsRestored labels.now self.old self.new }
    {
        let row = self.buckets();
        'aside: while let Some(node) = self.first(row) {
            self.put(node, labels[node]);
        }
    }

    /// Each node stands nowhere.
    pub fn clear(&mut self)
        ensures { self.new ≡ without_nodes self.old }
    {
        part(self.next.as_mut_slice());
        part(self.prev.as_mut_slice());
        self.rows.as_mut_slice().fill(self.buckets + 1);
        self.top = 0;
    }
}
