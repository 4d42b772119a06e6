//! The test that each term of an energy is regular, which is what makes the energy a network's cuts
//! (Kolmogorov and Zabih, PAMI 2004, sections 4.1 and 4.2).
#![tactic(auto)]

ghost use Rattle.std.specs.Prelude.{◌≡◌, ◌↔◌, IsOk, IfOk, IfErr};
ghost use Rattle.regular.specs.Regularity.{IsRegular, IsFirstFailing};

mod fixed;
mod regular;
mod table;
mod term;

pub use fixed::{Fixed, NotRegular};
use pseudo_bool::Energy;
pub use regular::Regular;
pub use table::is_regular_table;
use term::test_term;

/// Whether each term is regular by itself: if not, the first that is not.
/// Terms are not added up, so two terms over the same variables do not make up for each other.
pub fn check(energy: &Energy) -> Result<Regular<'_>, NotRegular>
    ensures regular { IsOk result ↔ IsRegular energy.now }
    ensures same { IfOk result (λ regular. regular ≡ energy.now) }
    ensures first { IfErr result (λ e. IsFirstFailing energy.now e.term e.fixed) }
{
    for index in 0..energy.term_count() {
        if let Err(fixed) = test_term(&energy.term(index)) {
            return Err(NotRegular { term: index, fixed });
        }
    }
    Ok(Regular::new(energy))
}
