//! The net of an energy.
ghost use Rattle.std.specs.Prelude.{◌≡◌, ℕ, ◌+◌, ◌<◌, ◌≤◌, ◌⊎◌, All, IfOk, slice_index};
ghost use Rattle.std.specs.Prelude.{unsigned_abs};
ghost use Rattle.flow_network.specs.Cut.{nodes};
ghost use Rattle.compile_cut.specs.Limits.{compiled_constant};
ghost use Rattle.compile_cut.specs.Shown.{ShowsValues, three_count};

use crate::Net;
use crate::capacities::net_of;
use crate::quadratic::quadratic_of;
use regular::Regular;
use std::alloc::{AllocError, Global};

/// The net of an energy.
#[derive(Drop)]
pub struct Compiled {
    /// A node for each variable, in their order, and then hidden nodes, at most one for each term
    /// of three variables. The node of a variable is on the sink's side of a cut where the variable
    /// is 1. Its capacities are in the unit of the energy.
    pub net: Net,
    /// What is to be added to the least capacity of the cuts that show an assignment to get its
    /// value, in the unit of the energy. Its size is below 2^59, so its sum with a capacity, which
    /// is below 2^62, is an `i64`.
    pub constant: i64,
}

/// A regular energy as a net: variable i is node i, and is 1 where its node is on the sink's side
/// of a cut. Of all cuts that show an assignment the least capacity, plus the constant, is the
/// assignment's value (Kolmogorov and Zabih, PAMI 2004, sections 4.1 to 4.3). Each node has a
/// capacity at the source or at the sink, or none, and each arc carries something. Refuses only
/// where memory runs out.
pub fn compile(alloc: Global, energy: Regular<'_>) -> Result<Compiled, AllocError>
    ensures shown { IfOk result (λ c. ShowsValues c.net c.constant energy.entry) }
    ensures constant { IfOk result (λ c. unsigned_abs c.constant ≤ compiled_constant) }
    ensures variables { IfOk result (λ c. energy.entry.variables ≤ nodes c.net) }
    ensures hidden { IfOk result
        (λ c. nodes c.net ≤ energy.entry.variables + three_count energy.entry) }
    ensures one_sided { IfOk result (λ c. (v : ℕ) → (slice_index c.net.sources v ≡ 0)
        ⊎ (slice_index c.net.sinks v ≡ 0)) }
    ensures arcs { IfOk result (λ c. All (λ arc. 0 < arc.capacity) c.net.arcs) }
{
    let form = quadratic_of(alloc, energy.energy())?;
    net_of(alloc, form)
}
