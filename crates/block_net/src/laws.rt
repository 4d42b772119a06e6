//! A law of the limits. The function does nothing: its contract is the law.
ghost use Rattle.std.specs.Prelude.{◌≡◌};
ghost use Rattle.block_net.specs.Limits.{arc_limit, block_limit};

use crate::{ARC_LIMIT, BLOCK_LIMIT};

/// Each limit is the number that contracts cite.
pub fn limits_are_cited()
    ensures blocks { BLOCK_LIMIT ≡ block_limit }
    ensures arcs { ARC_LIMIT ≡ arc_limit }
{}
