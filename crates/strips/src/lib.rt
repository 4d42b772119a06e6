//! A move closed in on strip by strip, in the order of its sites: of a strip only the border above
//! it is unknown. What both cuts of a strip tell is known for good. What they leave open goes to
//! the next strip. Parts of the sites are closed in side by side.
#![tactic(auto)]

mod basis;
mod closing;
mod opening;
mod parting;
mod parts;
mod telling;

pub use basis::Basis;
pub use closing::Strips;
pub use parting::close_parts;
