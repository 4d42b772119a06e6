//! Laws of refusals. Each function does nothing: its contract is the law.
ghost use Rattle.moves.specs.Laws.{MetricMoveHasRegularPairs, MetricRunHasRegularPairs};
ghost use Rattle.moves.specs.Laws.{AloneRefusesMemory};

/// Over smooth costs that are a metric neither a move nor a run is refused for a pair whose term is
/// not regular (Boykov, Veksler, Zabih, PAMI 2001, section 3). `Problem::means` tells when they
/// are.
pub fn metric_has_regular_pairs()
    ensures moved { MetricMoveHasRegularPairs }
    ensures run { MetricRunHasRegularPairs }
{}

/// With `Alone` what is refused over a metric (`over_metric`) is memory.
pub fn alone_refuses_memory()
    ensures { AloneRefusesMemory }
{}
