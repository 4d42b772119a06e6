//! Regular energies as nets: the least capacity of the cuts that show an assignment, plus a
//! constant, is its value (Kolmogorov and Zabih, PAMI 2004, section 4).
#![tactic(auto)]

mod adding;
mod capacities;
mod compiled;
mod laws;
mod parts;
mod quadratic;
mod three;
mod tied;

pub use capacities::{net_of, sink_capacities, source_capacities};
pub use compiled::{Compiled, compile};
pub use flow_network::{Arc, Net, Solved, check_cut};
pub use laws::smallest_cut_is_smallest_assignment;
pub use quadratic::{Quadratic, quadratic_of};
