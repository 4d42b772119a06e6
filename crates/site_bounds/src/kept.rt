//! Chosen sites of a block, listed without a branch on each.
ghost use Rattle.std.specs.Prelude.{◌≡◌, ◌+◌, ◌++◌, ◌∷◌, [], ◌<◌, ◌≤◌, cond, length, take};

/// Writes a site behind those that were kept, where it stays if it is chosen, and answers how many
/// are kept then. What is chosen comes in no order, so that a test of each site could not be
/// foreseen.
#[inline]
pub fn keep(kept: &mut [u32], count: usize, site: u32, chosen: bool) -> usize
    requires { count < length kept.old }
    ensures room { length kept.new ≡ length kept.old }
    ensures few { result ≤ count + 1 }
    ensures kept { take result kept.new ≡ take count kept.old ++ cond chosen (site ∷ []) [] }
{
    kept[count] = site;
    if chosen { count + 1 } else { count }
}
