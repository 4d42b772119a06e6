//! The least and the greatest cost of two unequal labels.
ghost use Rattle.std.specs.Prelude.{◌+◌, ◌<◌, ◌≤◌, ℕ};
ghost use Rattle.label_energies.specs.Energies.{IsRatio};
ghost use Rattle.cost_store.specs.Promises.{AnswersTable};
ghost use Rattle.cost_store.specs.Posed.{KeepsSmoothCosts};
ghost use Rattle.cost_store.specs.Ratios.{IsRatioSoFar, IsWithCost};

use crate::SmoothCost;

/// The least and the greatest cost of two unequal labels.
#[derive(Clone, Copy, Debug, PartialEq, Eq)]
pub struct Ratio {
    pub least: u64,
    pub greatest: u64,
}

impl Ratio {
    /// With one cost more.
    fn with(self, cost: u64) -> Ratio
        requires { self.least ≤ self.greatest }
        ensures wider { IsWithCost self result cost }
        ensures ordered { result.least ≤ result.greatest }
    {
        if cost < self.least {
            return Ratio {
                least: cost,
                greatest: self.greatest,
            };
        }
        if self.greatest < cost {
            return Ratio {
                least: self.least,
                greatest: cost,
            };
        }
        self
    }
}

impl<V: Fn(u32, u32) -> i64> SmoothCost<V> {
    /// The two numbers with one more cost, of two unequal labels, or as they are for two equal
    /// ones.
    fn widen(&self, first: u32, second: u32, seen: Ratio) -> Ratio
        requires keeps { KeepsSmoothCosts V.Fn self.now }
        requires inside { (first < self.now.labels) × (second < self.now.labels) }
        requires ordered { seen.least ≤ seen.greatest }
        ensures ratio { (cost : ℕ → ℕ → ℕ) →
            AnswersTable (V.post self.now.v) cost self.now.labels self.now.labels →
            IsRatioSoFar self.now.labels cost first second seen →
            IsRatioSoFar self.now.labels cost first (second + 1) result }
        ensures ordered { result.least ≤ result.greatest }
    {
        if first == second {
            return seen;
        }
        seen.with(self.cost(first, second).unsigned_abs())
    }

    /// The two numbers with the costs of a row more.
    fn widen_by_row(&self, first: u32, seen: Ratio) -> Ratio
        requires keeps { KeepsSmoothCosts V.Fn self.now }
        requires inside { first < self.now.labels }
        requires ordered { seen.least ≤ seen.greatest }
        ensures ratio { (cost : ℕ → ℕ → ℕ) →
            AnswersTable (V.post self.now.v) cost self.now.labels self.now.labels →
            IsRatioSoFar self.now.labels cost first 0 seen →
            IsRatioSoFar self.now.labels cost first self.now.labels result }
        ensures ordered { result.least ≤ result.greatest }
    {
        let mut now = seen;
        for second in 0..self.labels {
            now = self.widen(first, second, now);
        }
        now
    }

    /// The least and the greatest cost of two unequal labels, both 1 where there is one label. It
    /// takes no memory (Boykov, Veksler, Zabih, PAMI 2001, section 6).
    pub fn ratio(&self) -> Ratio
        requires keeps { KeepsSmoothCosts V.Fn self.now }
        ensures { (cost : ℕ → ℕ → ℕ)
            → AnswersTable (V.post self.now.v) cost self.now.labels self.now.labels →
            IsRatio self.now.labels cost result.least result.greatest }
    {
        if self.labels < 2 {
            return Ratio {
                least: 1,
                greatest: 1,
            };
        }
        let start = self.cost(0, 1).unsigned_abs();
        let mut now = Ratio {
            least: start,
            greatest: start,
        };
        for first in 0..self.labels {
            now = self.widen_by_row(first, now);
        }
        now
    }
}
