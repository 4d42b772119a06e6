//! Tables of data costs, by several threads where they can be had.
ghost use Rattle.std.specs.Prelude.{◌≡◌, ℕ, pos, ◌*◌, ◌/◌, ◌%◌, ◌^◌, ◌<◌, IfOk};
ghost use Rattle.cost_store.specs.Limits.{data_limit};
ghost use Rattle.cost_store.specs.Promises.{Keeps, AnswersTable};
ghost use Rattle.cost_store.specs.Posed.{KeepsCosts, IsTableFor, IsColumnFor};

use crate::DataCost;
use rayon::prelude::*;
use std::alloc::{AllocError, Global};
use std::thread::Threads;

impl<F: Fn(u32, u32) -> i64> DataCost<F> {
    /// The cost at a place of the table, whose rows stand one after another.
    fn cost_at(&self, place: usize) -> i64
        requires keeps { KeepsCosts F.Fn self.now }
        requires inside { place < self.now.sites * self.now.labels }
        requires small { self.now.sites < 2 ^ 32 }
        ensures { (cost : ℕ → ℕ → ℕ)
            → AnswersTable (F.post self.now.f) cost self.now.sites self.now.labels →
            result ≡ pos (cost (place / self.now.labels) (place % self.now.labels)) }
    {
        let labels = self.labels as usize;
        self.cost((place / labels) as u32, (place % labels) as u32)
    }

    /// The table that the closure answers, as `table_of` gives it, by as many threads as there are
    /// processors; plainly where they give no list. Refuses only where memory runs out.
    pub fn fill<R: Threads + Sync>(&self, rt: &R, alloc: Global) -> Result<Vec<i64>, AllocError>
    where
        F: Sync,
        requires keeps { KeepsCosts F.Fn self.now }
        ensures { IfOk result (λ table. IsTableFor F.Fn self.now table.items) }
    {
        let count = self.sites as usize * self.labels as usize;
        let made = (0..count)
            .into_par_iter()
            .map(
                |place: usize| -> i64
                    requires { Keeps (F.pre self.now.f) (F.post self.now.f)
                        self.now.sites self.now.labels data_limit
                        × (place < self.now.sites * self.now.labels) × (self.now.sites < 2 ^ 32) }
                    ensures { (cost : ℕ → ℕ → ℕ) →
                        AnswersTable (F.post self.entry.now.f)
                        cost self.entry.now.sites self.entry.now.labels →
                        result ≡ pos (cost (place / self.entry.now.labels)
                        (place % self.entry.now.labels)) }
                { self.cost_at(place) },
            )
            .collect(rt, alloc);
        match made {
            Ok(table) => Ok(table),
            Err(AllocError) => self.table_of(alloc),
        }
    }

    /// What a label costs each site, in the order of the sites.
    pub fn column_of(&self, alloc: Global, label: u32) -> Result<Vec<i64>, AllocError>
        requires keeps { KeepsCosts F.Fn self.now }
        requires inside { label < self.now.labels }
        ensures { IfOk result (λ column. IsColumnFor F.Fn self.now label column.items) }
    {
        let mut column = Vec::with_capacity(alloc, self.sites as usize)?;
        for site in 0..self.sites {
            column.push_reserved(self.cost(site, label));
        }
        Ok(column)
    }

    /// What a label costs each site, as `column_of` gives it, by as many threads as there are
    /// processors; plainly where they give no list. Refuses only where memory runs out.
    pub fn fill_column<R: Threads + Sync>(
        &self,
        rt: &R,
        alloc: Global,
        label: u32,
    ) -> Result<Vec<i64>, AllocError>
    where
        F: Sync,
        requires keeps { KeepsCosts F.Fn self.now }
        requires inside { label < self.now.labels }
        ensures { IfOk result (λ column. IsColumnFor F.Fn self.now label column.items) }
    {
        let made = (0..self.sites)
            .into_par_iter()
            .map(
                |site: u32| -> i64
                    requires { Keeps (F.pre self.now.f) (F.post self.now.f)
                        self.now.sites self.now.labels data_limit
                        × (site < self.now.sites) × (label < self.now.labels) }
                    ensures { (cost : ℕ → ℕ → ℕ) →
                        AnswersTable (F.post self.entry.now.f)
                        cost self.entry.now.sites self.entry.now.labels →
                        result ≡ pos (cost site label) }
                { self.cost(site, label) },
            )
            .collect(rt, alloc);
        match made {
            Ok(column) => Ok(column),
            Err(AllocError) => self.column_of(alloc, label),
        }
    }
}
