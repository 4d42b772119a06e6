//! Laws of limits and of metrics. Each function does nothing: its contract is the law.
ghost use Rattle.std.specs.Prelude.{◌≡◌, pos};
ghost use Rattle.cost_store.specs.Limits.{data_limit, label_cost_limit, smooth_limit};
ghost use Rattle.cost_store.specs.Metrics.{LinearIsMetric, MetricHasMetricTable, PottsIsMetric};

use crate::{DATA_LIMIT, LABEL_COST_LIMIT, SMOOTH_LIMIT};

/// Each limit is the number that contracts cite.
pub fn limits_are_cited()
    ensures data { DATA_LIMIT ≡ data_limit }
    ensures smooth { SMOOTH_LIMIT ≡ smooth_limit }
    ensures label { LABEL_COST_LIMIT ≡ pos label_cost_limit }
{}

/// Potts costs are a metric, whose least and greatest costs of two unequal labels are 1 (Boykov,
/// Veksler, Zabih, PAMI 2001, section 2).
pub fn potts_is_metric()
    ensures { PottsIsMetric }
{}

/// Truncated linear costs are a metric, whatever they are cut off at, from 1 on (the same section).
pub fn linear_is_metric()
    ensures { LinearIsMetric }
{}

/// The table of costs that are a metric is one of which `is_metric` says yes.
pub fn metric_has_metric_table()
    ensures { MetricHasMetricTable }
{}
