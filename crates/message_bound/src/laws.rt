//! The law behind the bound. The function does nothing: its contract is the law.
ghost use Rattle.message_bound.specs.Duality.{WeakDuality};

/// Weak duality: messages that the pairs can afford, whatever they are, prove a bound from below of
/// every energy (Schlesinger, Kibernetika 1976; Werner, PAMI 2007, section 3).
pub fn duality_is_weak()
    ensures { WeakDuality }
{}
