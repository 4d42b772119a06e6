//! Laws of closing in on the least assignment with the fewest ones: each function does nothing, and
//! its contract is the law. The first are of any function of an assignment, most of one whose rises
//! fall; the last five of the labellings that a move makes.

ghost use Rattle.std.specs.Prelude.{ℕ, Bool, List, ℤ};
ghost use Rattle.move_energy.specs.declared.choice.Choice.{Choice};
ghost use Rattle.move_energy.specs.declared.choice.Choice.TheVariants.{Open};
ghost use Rattle.move_energy.specs.Assignments.{IsSubmodular, IsOver};
ghost use Rattle.site_bounds.specs.Decisions.{IsSmallestLeast};
ghost use Rattle.persistency.specs.Fixing.{fixed_value};
ghost use Rattle.persistency.specs.Agreeing.{Agree, AreOpened};
ghost use Rattle.persistency.specs.Strips.{Strip, with_batches, AreBatches};
ghost use Rattle.persistency.specs.Laws.{LeastRises, OnesBoundLeast, ZerosBoundLeast};
ghost use Rattle.persistency.specs.Laws.{RestAndFixedIsLeast};
ghost use Rattle.persistency.specs.Laws.{EachAgreedAgree, ForcedAgree, RestAgrees, AgreeByRest};
ghost use Rattle.persistency.specs.Laws.{StripAgrees, LowerAgrees, UpperAgrees, LowerWithinUpper};
ghost use Rattle.persistency.specs.Laws.{UpperZerosAreLeast, ZerosOfEitherAreLeast};
ghost use Rattle.persistency.specs.Laws.{TestedAgree, StripAddsLater, StripsSideBySide};
ghost use Rattle.persistency.specs.Laws.{BatchesAndRestAreLeast};
ghost use Rattle.persistency.specs.Laws.{DecidedAgree, BatchesEndMove, UpperRiseIsLower};
ghost use Rattle.persistency.specs.Laws.{UpperIsLowerWithBorder};
ghost use Rattle.persistency.specs.Laws.{WeightsOfStrip, WeightsLessBorder, SameChoicesSame};
ghost use Rattle.persistency.specs.Laws.{PartlyDecidedAgree, BoundsTellOne, WeightsGoOn};
ghost use Rattle.persistency.specs.Laws.{BorderBySite};
ghost use Rattle.persistency.specs.Laws.{FormTellsLeast, FormTellsSmallestLeast};
ghost use Rattle.persistency.specs.Laws.{FormLessBorder, ReweighedLessBorder};

/// There is a least assignment with the fewest ones: the least ones are closed under "both" and
/// "either" (Topkis 1978). So what is kept for each such assignment is kept for one.
pub fn smallest_least_exists()
    ensures { (n : ℕ) (E : (ℕ → Bool) → ℤ) → IsSubmodular E → IsOver n E →
        (s : ℕ → Bool) × IsSmallestLeast n E s }
{}

/// What is fixed leaves a function whose rises fall, of the same variables: so deciding and its
/// laws serve it too.
pub fn fixed_is_submodular()
    ensures falls { (E : (ℕ → Bool) → ℤ) (choice : ℕ → Choice) → IsSubmodular E →
        IsSubmodular (fixed_value E choice) }
    ensures variables { (n : ℕ) (E : (ℕ → Bool) → ℤ) (choice : ℕ → Choice) → IsOver n E →
        IsOver n (fixed_value E choice) }
{}

/// Of a function that is fixed in two ways, the lower and the upper, the least assignments rise
/// with what is fixed (Topkis 1978): the one with the fewest ones below lies within each one above.
pub fn least_rises()
    ensures { LeastRises }
{}

/// An upper bound: where what is fixed to 0 is 0 in the least assignment with the fewest ones, its
/// ones lie within those of every least assignment of what is left, whatever else is fixed to 1.
pub fn ones_bound_least()
    ensures { OnesBoundLeast }
{}

/// A lower bound: where what is fixed to 1 is 1 in a least assignment, the ones of the least
/// assignment with the fewest ones of what is left lie within its ones, whatever else is fixed to
/// 0.
pub fn zeros_bound_least()
    ensures { ZerosBoundLeast }
{}

/// Where what is fixed is fixed as in the least assignment with the fewest ones, the least
/// assignment with the fewest ones of what is left, with what is fixed, is the whole's: so a last
/// cut may have all sites outside a closed set at 0.
pub fn rest_and_fixed_is_least()
    ensures { RestAndFixedIsLeast }
{}

/// Agreeing is a matter of each variable by itself: where nothing is chosen the choices agree, they
/// do when choices are opened again, and when some are taken from other choices that agree.
pub fn agreeing_is_by_variable()
    ensures each { EachAgreedAgree }
    ensures none { (n : ℕ) (E : (ℕ → Bool) → ℤ) → Agree n E (λ p. Open) }
    ensures opened { (n : ℕ) (E : (ℕ → Bool) → ℤ) (old new : ℕ → Choice) → Agree n E old →
        AreOpened n old new → Agree n E new }
{}

/// What forced decisions choose agrees.
pub fn forced_agree()
    ensures { ForcedAgree }
{}

/// With choices that agree, the least assignment with the fewest ones of what is left is that of
/// the whole; and so choices that agree with what is left go on from them.
pub fn rest_agrees()
    ensures least { RestAgrees }
    ensures agree { AgreeByRest }
{}

/// What is left depends on the choices of the variables alone.
pub fn same_choices_same()
    ensures { SameChoicesSame }
{}

/// What a strip tells agrees: what is 1 even with all other open variables at 0, and what is 0 even
/// with all of them at 1; and each side by itself.
pub fn strip_agrees()
    ensures both { StripAgrees }
    ensures lower { LowerAgrees }
    ensures upper { UpperAgrees }
{}

/// The zeros above are kept where no more is known than zeros: what is chosen to be 1 need not be 1
/// in the least assignment with the fewest ones. So the sites that were not looked at may count as
/// 1, and several may look at sites apart, each with all others at 1, and put their zeros together.
pub fn zeros_alone_are_kept()
    ensures upper { UpperZerosAreLeast }
    ensures either { ZerosOfEitherAreLeast }
{}

/// No variable is told to be both 0 and 1.
pub fn lower_within_upper()
    ensures { LowerWithinUpper }
{}

/// What the test of a single variable tells is what a strip of one tells: so single ones and strips
/// come in any order.
pub fn tested_agree()
    ensures { TestedAgree }
{}

/// A strip may add what it tells later than its bounds were found, when others of its batch have
/// added theirs: one step of a join.
pub fn strip_adds_later()
    ensures { StripAddsLater }
{}

/// Strips side by side: those that were closed in from the same choices may each add what they
/// tell.
pub fn strips_side_by_side()
    ensures { StripsSideBySide }
{}

/// Batch after batch of strips, and then what is left: the choices agree all along, and the least
/// assignment with the fewest ones of what is left is that of the whole.
pub fn batches_and_rest_are_least()
    ensures agree { (n : ℕ) (E : (ℕ → Bool) → ℤ) (choice : ℕ → Choice)
        (batches : List (List Strip)) →
        IsSubmodular E → IsOver n E → Agree n E choice → AreBatches n E choice batches →
        Agree n E (with_batches choice batches) }
    ensures least { BatchesAndRestAreLeast }
{}

/// Of a move whose terms are regular, an expansion or a swap: what was decided site by site agrees,
/// also half way, where the bounds of a site are those of its test; and batches of strips, and then
/// a cut of what is left, find the move's least assignment with the fewest ones. What labels cost
/// by themselves is left out, as in `site_bounds`.
pub fn batches_end_move()
    ensures decided { DecidedAgree }
    ensures partly { PartlyDecidedAgree }
    ensures told { BoundsTellOne }
    ensures ended { BatchesEndMove }
{}

/// The network of a strip's upper function is that of its lower one, with more room to the sink at
/// the border: the rise of each site of the strip is lower by the surplus of its pairs that lead to
/// open sites outside it, and so is the whole function by those of the ones, but for a fixed
/// number.
pub fn upper_is_lower_with_border()
    ensures rise { UpperRiseIsLower }
    ensures value { UpperIsLowerWithBorder }
    ensures by_site { BorderBySite }
{}

/// What a builder is given: the weights of the open sites serve a strip's lower function as they
/// are, and its upper one less the border; and once more is chosen, they are less what lies at
/// sites that are now at 1.
pub fn strip_has_weights()
    ensures lower { WeightsOfStrip }
    ensures upper { WeightsLessBorder }
    ensures later { WeightsGoOn }
{}

/// What a cut of the form tells: least bits of the form are least values of what is left, and with
/// the fewest ones they are those with the fewest ones.
pub fn form_tells_least()
    ensures least { FormTellsLeast }
    ensures smallest { FormTellsSmallestLeast }
{}

/// The form of a strip's lower function, less the border, is one of its upper function: the same
/// form, each weight less the border of its site.
pub fn form_less_border()
    ensures value { FormLessBorder }
    ensures weights { ReweighedLessBorder }
{}
