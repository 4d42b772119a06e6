//! The laws of the labels that an expansion keeps: each function does nothing, and its contract is
//! the law.
ghost use Rattle.kept_labels.specs.Laws.{KeptIsNotGivenUp, KeptIsPlain};

/// A kept label is not given up (`kept`): the rises of a move's energies fall, so its sites rise
/// least where they turn last. If all labels are kept that cost something by themselves, these
/// costs are the same for all that the expansion could do, but for what its own label costs. So the
/// expansion without label costs decides it (`plain`).
pub fn kept_is_plain()
    ensures kept { KeptIsNotGivenUp }
    ensures plain { KeptIsPlain }
{}
