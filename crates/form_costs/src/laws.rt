//! The laws of a form as costs: each function does nothing, and its contract is the law.
ghost use Rattle.form_costs.specs.FormCosts.{FormIsEnergy, BestIsMinimum};

/// The value of a form at an assignment is the energy of the labelling that the assignment is, but
/// for a fixed number (`form`). So the best labelling that an expansion of label 1 from label 0
/// reaches is the least assignment of the energy whose form it is, with the fewest ones
/// (`minimum`).
pub fn form_is_energy()
    ensures form { FormIsEnergy }
    ensures minimum { BestIsMinimum }
{}
