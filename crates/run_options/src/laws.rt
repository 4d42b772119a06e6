//! A law of the limits. The function does nothing: its contract is the law.
ghost use Rattle.std.specs.Prelude.{◌≡◌};
ghost use Rattle.run_options.specs.Limits.{cap_limit, cycle_limit, greatest_data_cost};
ghost use Rattle.run_options.specs.Limits.{greatest_label_cost, greatest_sample};
ghost use Rattle.run_options.specs.Limits.{greatest_smooth_cost, trunc_limit};

use crate::{
    CAP_LIMIT, CYCLE_LIMIT, DATA_LIMIT, LABEL_COST_LIMIT, MAXVAL_LIMIT, SMOOTH_LIMIT, TRUNC_LIMIT,
};

/// Each limit is the number that contracts cite.
pub fn limits_are_cited()
    ensures smooth { SMOOTH_LIMIT ≡ greatest_smooth_cost }
    ensures data { DATA_LIMIT ≡ greatest_data_cost }
    ensures label_cost { LABEL_COST_LIMIT ≡ greatest_label_cost }
    ensures trunc { TRUNC_LIMIT ≡ trunc_limit }
    ensures cycles { CYCLE_LIMIT ≡ cycle_limit }
    ensures cap { CAP_LIMIT ≡ cap_limit }
    ensures maxval { MAXVAL_LIMIT ≡ greatest_sample }
{}
