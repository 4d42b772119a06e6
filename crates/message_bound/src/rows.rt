//! Rows of entries: a row for each site, and in it an entry for each label.
ghost use Rattle.std.specs.Prelude.{◌≡◌, ℕ, ◌+◌, ◌-◌, ◌*◌, ◌^◌, ◌<◌, ◌≤◌, length, slice_index};
ghost use Rattle.message_bound.specs.Rows.{ground, entries_of, AreRaised};

/// Entries stand above this, so that none has to be below 0.
pub(crate) const GROUND: u64 = 1 << 55;

/// Adds numbers to the entries from a place on.
pub(crate) fn raise(rows: &mut [u64], from: usize, by: &[u32])
    requires inside { from + length by.now ≤ length rows.old }
    requires small { (j : ℕ) → j < length rows.old → slice_index rows.old j < 2 ^ 63 }
    ensures { AreRaised from (length by.now) by.now rows.old rows.new }
{
    for label in 0..by.len() {
        rows[from + label] += u64::from(by[label]);
    }
}

/// Takes numbers off the entries from a place on.
pub(crate) fn lower(rows: &mut [u64], from: usize, by: &[u32])
    requires inside { from + length by.now ≤ length rows.old }
    requires large { (j : ℕ) → j < length rows.old → 2 ^ 32 ≤ slice_index rows.old j }
    ensures { AreRaised from (length by.now) by.now rows.new rows.old }
{
    for label in 0..by.len() {
        rows[from + label] -= u64::from(by[label]);
    }
}

/// The least of a row: the greatest number that no entry is below.
pub fn least(row: &[u64]) -> u64
    ensures least { (k : ℕ) → k < length row.now → result ≤ slice_index row.now k }
    ensures most { (c : ℕ) → c < 2 ^ 64
        → ((k : ℕ) → k < length row.now → c ≤ slice_index row.now k) → c ≤ result }
{
    let mut least = u64::MAX;
    for label in 0..row.len() {
        least = least.min(row[label]);
    }
    least
}

/// How far the least entries of all rows are together above the ground: 0 where they are not.
pub(crate) fn least_above_ground(rows: &[u64], sites: usize, labels: usize) -> u64
    requires { length rows.now ≡ sites * labels }
    ensures { (g : ℕ → ℕ) → ((p : ℕ) → p < sites → g p < labels)
        → result ≤ entries_of sites labels rows.now g - sites * ground }
{
    let mut above = 0u64;
    let mut below = 0u64;
    for site in 0..sites {
        let from = site * labels;
        let low = least(&rows[from..from + labels]);
        if low >= GROUND {
            above = above.saturating_add(low - GROUND);
        } else {
            match below.checked_add(GROUND - low) {
                Some(sum) => below = sum,
                None => return 0,
            }
        }
    }
    above.saturating_sub(below)
}
