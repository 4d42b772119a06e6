//! What one label costs each site, in a list.
ghost use Rattle.std.specs.Prelude.{◌<◌, ℕ, IfOk};
ghost use Rattle.cost_store.specs.Limits.{data_limit};
ghost use Rattle.cost_store.specs.Promises.{Keeps, AnswersTable, IsColumn};

use cost_store::DataCost;
use cut_ways::How;
use std::alloc::{AllocError, Global};

/// What one label costs each site, asked of the way to cut nets.
pub trait Columns: How {
    /// What a label costs each site, in the order of the sites. Refuses only where memory runs out.
    /// It is made on the caller's thread, whatever cuts the nets. A move does not ask for it: to
    /// call the closure at each site costs less than to write a list and to read it.
    fn column<F: Fn(u32, u32) -> i64 + Sync>(
        &self,
        alloc: Global,
        data_cost: &DataCost<F>,
        label: u32,
    ) -> Result<Vec<i64>, AllocError>
        requires keeps { Keeps (F.pre data_cost.now.f) (F.post data_cost.now.f) data_cost.now.sites
            data_cost.now.labels data_limit }
        requires inside { label < data_cost.now.labels }
        ensures { IfOk result (λ column. (cost : ℕ → ℕ → ℕ)
            → AnswersTable (F.post data_cost.now.f) cost
            data_cost.now.sites data_cost.now.labels
            → IsColumn data_cost.now.sites label cost column.items) }
    {
        data_cost.column_of(alloc, label)
    }
}

impl<H: How> Columns for H {}
