//! What two labels cost a pair: its weight times the entry of its table.
ghost use Rattle.std.specs.Prelude.{◌≡◌, ◌↔◌, ◌⊎◌, ℕ, ◌+◌, ◌*◌, ◌<◌, ◌≤◌, All, IfOk, IfErr, IsTrue};
ghost use Rattle.std.specs.Prelude.{length, map, pos, ◌≤ℤ◌, slice_index_or, unsigned_abs};
ghost use Rattle.label_field.specs.Limits.{label_limit};
ghost use Rattle.cost_store.specs.Limits.{data_limit, site_cost_limit};
ghost use Rattle.cost_store.specs.Promises.{IsCost};
ghost use Rattle.gco_arrays.specs.PairCalls.{AreTablesCounted, HasPrice, IsPriceIn, own_cost};
ghost use Rattle.gco_arrays.specs.PairCalls.{table_number};
ghost use Rattle.gco_arrays.specs.PairRefusals.{IsFirstUnpriced, IsPriceRefusal, IsRowTooDear};
ghost use Rattle.gco_arrays.specs.PairRefusals.{IsTableTooDear};

use crate::number::Number;
use crate::pairs::GcoPair;
use crate::refusal::Refusal;

/// The greatest cost of a pair.
const PAIR_COST_LIMIT: u64 = 10_000_000;

/// What pairs cost: tables of so many labels, one after another, each with a row for each label of
/// a pair's first site; the pairs, whose weights the entries are multiplied by; and the number of
/// each pair's table, or no number: then pair `n` has table `n`.
#[derive(Clone, Copy)]
pub struct PairPrices<'t, 'p, 'n, N> {
    pub labels: u32,
    pub tables: &'t [N],
    pub pairs: &'p [GcoPair],
    pub table_of: &'n [u32],
}

impl<'t, 'p, 'n, N: Number> PairPrices<'t, 'p, 'n, N> {
    /// What two labels cost a pair.
    pub fn cost(&self, pair: u32, first: u32, second: u32) -> i64
        requires { IsPriceIn self.now.labels (map N.value self.now.tables.now) self.now.pairs.now
            self.now.table_of.now pair first second }
        ensures { result ≡ pos (own_cost self.now.labels (map N.value self.now.tables.now)
            self.now.pairs.now self.now.table_of.now pair first second) }
    {
        let labels = self.labels as usize;
        let row = self.table_number(pair as usize) * labels + first as usize;
        let entry = entry_of(self.tables, row * labels + second as usize);
        (u64::from(self.pairs[pair as usize].weight) * entry) as i64
    }

    /// The number of a pair's table.
    fn table_number(&self, pair: usize) -> usize
        requires { (length self.now.table_of.now ≡ 0) ⊎ (pair < length self.now.table_of.now) }
        ensures { result ≡ table_number self.now.table_of.now pair }
    {
        if self.table_of.is_empty() {
            return pair;
        }
        self.table_of[pair] as usize
    }

    /// Whether each pair has one of so many tables, and no two labels cost it more than the limit.
    pub(crate) fn check(&self, table_count: u32) -> Result<(), Refusal>
        requires few { self.now.labels ≤ label_limit }
        requires counted { AreTablesCounted self.now.labels table_count
            (length self.now.tables.now) (length self.now.pairs.now)
            (length self.now.table_of.now) }
        requires range { All (IsCost data_limit) (map N.value self.now.tables.now) }
        ensures priced { IfOk result (λ _. (n : ℕ) → n < length self.now.pairs.now →
            HasPrice self.now.labels table_count (map N.value self.now.tables.now)
            self.now.pairs.now self.now.table_of.now n) }
        ensures refused { IfErr result (IsFirstUnpriced self.now.labels table_count
            (map N.value self.now.tables.now) self.now.pairs.now self.now.table_of.now) }
    {
        let most = greatest_of(self.tables);
        for place in 0..self.pairs.len() {
            self.check_pair(table_count, most, place)?;
        }
        Ok(())
    }

    /// Whether the pair at a place has one of so many tables, no entry of which is above `most`,
    /// and no two labels cost it more than the limit.
    fn check_pair(&self, table_count: u32, most: u64, place: usize) -> Result<(), Refusal>
        requires few { self.now.labels ≤ label_limit }
        requires counted { AreTablesCounted self.now.labels table_count
            (length self.now.tables.now) (length self.now.pairs.now)
            (length self.now.table_of.now) }
        requires range { All (IsCost data_limit) (map N.value self.now.tables.now) }
        requires most { (most ≤ site_cost_limit)
            × All (λ cost. cost ≤ℤ pos most) (map N.value self.now.tables.now) }
        requires place { place < length self.now.pairs.now }
        ensures priced { IfOk result (λ _. HasPrice self.now.labels table_count
            (map N.value self.now.tables.now) self.now.pairs.now self.now.table_of.now place) }
        ensures refused { IfErr result (IsPriceRefusal self.now.labels table_count
            (map N.value self.now.tables.now) self.now.pairs.now self.now.table_of.now place) }
    {
        let number = self.table_number(place);
        if number >= table_count as usize {
            return Err(Refusal::NoSuchTable(place));
        }
        let weight = self.pairs[place].weight;
        if u64::from(weight) * most > PAIR_COST_LIMIT
            && is_table_above(self.tables, self.labels, number, weight)
        {
            return Err(Refusal::PairCostRange(place));
        }
        Ok(())
    }
}

/// The entry at a place.
fn entry_of<N: Number>(tables: &[N], place: usize) -> u64
    requires inside { place < length tables.now }
    ensures entry { result
        ≡ unsigned_abs (slice_index_or (map N.value tables.now) place (pos 0)) }
    ensures range { All (IsCost data_limit) (map N.value tables.now) → result ≤ site_cost_limit }
{
    tables[place].wide().unsigned_abs()
}

fn greater(a: u64, b: u64) -> u64
    ensures either { (result ≡ a) ⊎ (result ≡ b) }
    ensures greater { (a ≤ result) × (b ≤ result) }
{
    if a < b { b } else { a }
}

/// A number that no entry of a table is above.
fn greatest_of<N: Number>(tables: &[N]) -> u64
    requires { All (IsCost data_limit) (map N.value tables.now) }
    ensures range { result ≤ site_cost_limit }
    ensures most { All (λ cost. cost ≤ℤ pos result) (map N.value tables.now) }
{
    let mut most = 0;
    for place in 0..tables.len() {
        most = greater(most, entry_of(tables, place));
    }
    most
}

/// Whether some entry of a table times the weight is above the greatest cost of a pair.
fn is_table_above<N: Number>(tables: &[N], labels: u32, number: usize, weight: u32) -> bool
    requires few { labels ≤ label_limit }
    requires inside { (number * labels + labels) * labels ≤ length tables.now }
    requires range { All (IsCost data_limit) (map N.value tables.now) }
    ensures { IsTrue result ↔ IsTableTooDear labels (map N.value tables.now) number weight }
{
    for first in 0..labels {
        if is_row_above(
            tables,
            labels,
            number * labels as usize + first as usize,
            weight,
        ) {
            return true;
        }
    }
    false
}

/// The same of a row.
fn is_row_above<N: Number>(tables: &[N], labels: u32, row: usize, weight: u32) -> bool
    requires few { labels ≤ label_limit }
    requires inside { row * labels + labels ≤ length tables.now }
    requires range { All (IsCost data_limit) (map N.value tables.now) }
    ensures { IsTrue result ↔ IsRowTooDear labels (map N.value tables.now) row weight }
{
    for second in 0..labels {
        let entry = entry_of(tables, row * labels as usize + second as usize);
        if u64::from(weight) * entry > PAIR_COST_LIMIT {
            return true;
        }
    }
    false
}
