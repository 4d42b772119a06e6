//! What the sites near the changes get in a swap that is made once more: bounds by two cuts, and
//! the closed set of those that may turn, at which both bounds are the same.
ghost use Rattle.std.specs.Prelude.{◌≡◌, ◌≢◌, ◌<◌, ℕ, true, length, IfOk, OnOk, IsTrue, IsFalse};
ghost use Rattle.std.specs.Prelude.{slice_index};
ghost use Rattle.std.specs.List.{All, Contains};
ghost use Rattle.label_energies.specs.Energies.{labelling};
ghost use Rattle.move_energy.specs.Choices.{choice_at, choice_of, value_of, open_count};
ghost use Rattle.move_energy.specs.Choices.{AreOpenSites, IsNumbering};
ghost use Rattle.move_energy.specs.declared.choice.Choice.TheVariants.{One};
ghost use Rattle.move_energy.specs.MoveValues.{move_value};
ghost use Rattle.near_changes.specs.Looking.{is_marked, IsClosedIn};
ghost use Rattle.near_changes.specs.Working.{KeepsFresh, KeepsZeros};
ghost use Rattle.near_swaps.specs.Looking.{as_zero, lowest_value, values_in};
ghost use Rattle.near_swaps.specs.Looking.{settled_value, AreBoundsSame, AreTurnsListed};
ghost use Rattle.near_swaps.specs.Looking.{HaveZerosOther, CoversOthers, IsSwapStageReady};
ghost use Rattle.near_swaps.specs.Swaps.{kept_values, may_turn, may_turn_at, AreLeastBetween};
ghost use Rattle.near_swaps.specs.Swaps.{IsEndOfSwap};
ghost use Rattle.persistency.specs.Fixing.{AreLeastZeros, IsLeftOpen};
ghost use Rattle.pseudo_bool.specs.Energies.{assignment};
ghost use Rattle.site_forms.specs.Numbers.{IsOverPairs, WhereRead};

use move_energy::{Choice, Variables};
use near_changes::{Stage, Window};
use site_bounds::SiteForm;
use std::alloc::{AllocError, Global};
use strips::Strips;

/// A swap near the changes opens at most one in so many of the sites that it can change: where it
/// needs more, it is made whole.
const OPENED_SHARE: usize = 2;

/// The most stages of a swap: where none of so many is closed, it is made whole.
const STAGE_LIMIT: u32 = 8;

/// Bounds of the open sites' values: below and above the least values with the fewest ones, a bit
/// for each open site.
#[derive(Drop)]
struct Bits {
    lower: Vec<bool>,
    upper: Vec<bool>,
}

/// The choice of a value.
fn choice_with(one: bool) -> Choice
    ensures { result ≡ choice_of one }
{
    if one { Choice::One } else { Choice::Zero }
}

/// Whether a site may get another label, if it has 1 now or 0, and these bounds.
fn turns(one: bool, lower: bool, upper: bool) -> bool
    ensures { result ≡ may_turn one lower upper }
{
    if one { !lower } else { upper }
}

/// Gives the listed sites this choice.
fn set_listed(choices: &mut Vec<Choice>, sites: &[u32], choice: Choice)
    requires { All (λ p. p < length choices.old.items) sites.now }
    ensures count { length choices.new.items ≡ length choices.old.items }
    ensures listed { (p : ℕ) → Contains sites.now p → choice_at choices.new.items p ≡ choice }
    ensures others { (p : ℕ) → (Contains sites.now p → ⊥) →
        choice_at choices.new.items p ≡ choice_at choices.old.items p }
{
    for index in 0..sites.len() {
        choices[sites[index] as usize] = choice;
    }
}

/// The choices, whose open sites are listed, with all that count as 1 at 0.
fn lower_all(alloc: Global, choices: &[Choice], opened: &[u32]) -> Result<Vec<Choice>, AllocError>
    requires { AreOpenSites choices.now opened.now }
    ensures count { IfOk result (λ list. length list.items ≡ length choices.now) }
    ensures each { IfOk result (λ list. (p : ℕ) → p < length choices.now →
        choice_at list.items p ≡ as_zero (choice_at choices.now p)) }
{
    let mut list = Vec::new(alloc);
    list.resize(choices.len(), Choice::Zero)?;
    set_listed(&mut list, opened, Choice::Open);
    Ok(list)
}

/// The sites of all windows: of all sites.
fn all_sites(form: &SiteForm) -> Window
    ensures { (result.from ≡ 0) × (result.to ≡ form.now.pairs.now.sites) }
{
    Window {
        from: 0,
        to: form.pairs.sites(),
    }
}

/// Opens the fresh sites of a swap, and rings around them, of those that it can change, which are
/// the open ones and are listed. All others of these count as 1.
fn open_near(
    form: &SiteForm,
    stage: &mut Stage,
    choices: &mut Vec<Choice>,
    own: &[u32],
) -> Result<(), AllocError>
    requires over { IsOverPairs form.now }
    requires sites { length choices.old.items ≡ length form.now.at.now }
    requires own { AreOpenSites choices.old.items own.now }
    requires inside { All (λ p. p < form.now.pairs.now.sites) stage.old.fresh_sites.items }
    ensures zeros { OnOk result (KeepsZeros choices.old.items choices.new.items) }
    ensures opened { OnOk result (AreOpenSites choices.new.items stage.new.opened.items) }
    ensures same { (stage.new.fresh ≡ stage.old.fresh)
        × (stage.new.fresh_sites ≡ stage.old.fresh_sites) }
{
    form.pairs.keeps();
    set_listed(choices, own, Choice::One);
    let window = all_sites(form);
    stage.open_fresh(choices, form.pairs, form.ends, window)
}

/// Bounds of the values of the listed open sites, by two cuts: with all that counts as 1 at 0, and
/// at 1.
fn find_bounds(
    form: &SiteForm,
    strips: &mut Strips,
    variables: &mut Variables,
    opened: &[u32],
) -> Result<Bits, AllocError>
    requires over { IsOverPairs form.now }
    requires sites { length variables.old.choices.items ≡ length form.now.at.now }
    requires opened { AreOpenSites variables.old.choices.items opened.now }
    ensures kept { variables.new.choices ≡ variables.old.choices }
    ensures numbering { OnOk result
        (IsNumbering variables.new.choices.items variables.new.of_sites.items) }
    ensures lower_bits { IfOk result
        (λ bits. length bits.lower.items ≡ open_count variables.old.choices.items) }
    ensures upper_bits { IfOk result
        (λ bits. length bits.upper.items ≡ open_count variables.old.choices.items) }
    ensures between { WhereRead form.now (λ m move f.
        AreLeastZeros m.sites (move_value m move f) (choice_at variables.old.choices.items) →
        IfOk result (λ bits. AreLeastBetween m.sites (move_value m move f)
        (lowest_value variables.old.choices.items bits.lower.items)
        (value_of variables.old.choices.items bits.upper.items))) }
{
    let alloc = *variables.choices.allocator();
    let lowest = lower_all(alloc, &variables.choices, opened)?;
    let lower = strips.look_read(form, &lowest, opened, &mut variables.of_sites)?;
    let upper = strips.look_read(form, &variables.choices, opened, &mut variables.of_sites)?;
    Ok(Bits { lower, upper })
}

/// Of each listed site whether it may get another label by its bounds.
fn list_turning(
    alloc: Global,
    at: &[u8],
    beta: u8,
    opened: &[u32],
    bits: &Bits,
) -> Result<Vec<bool>, AllocError>
    requires sites { All (λ p. p < length at.now) opened.now }
    requires lower { length bits.now.lower.items ≡ length opened.now }
    requires upper { length bits.now.upper.items ≡ length opened.now }
    ensures count { IfOk result (λ list. length list.items ≡ length opened.now) }
    ensures each { IfOk result (λ list. (k : ℕ) → k < length opened.now →
        assignment list.items k
        ≡ may_turn (kept_values beta (labelling at.now) (slice_index opened.now k))
        (assignment bits.now.lower.items k) (assignment bits.now.upper.items k)) }
{
    let mut list = Vec::new(alloc);
    list.reserve(opened.len())?;
    for index in 0..opened.len() {
        let one = at[opened[index] as usize] == beta;
        list.push_reserved(turns(one, bits.lower[index], bits.upper[index]));
    }
    Ok(list)
}

/// Finds the sites that may turn around the fresh ones, and answers whether they are closed: no
/// pair leads from them to others that may turn, and each of them is open.
fn close_set(
    form: &SiteForm,
    stage: &mut Stage,
    variables: &Variables,
    bits: &Bits,
    beta: u8,
) -> Result<bool, AllocError>
    requires over { IsOverPairs form.now }
    requires sites { length variables.now.choices.items ≡ length form.now.at.now }
    requires opened { AreOpenSites variables.now.choices.items stage.old.opened.items }
    requires numbering { IsNumbering variables.now.choices.items variables.now.of_sites.items }
    requires lower { length bits.now.lower.items ≡ open_count variables.now.choices.items }
    requires upper { length bits.now.upper.items ≡ open_count variables.now.choices.items }
    requires zeros { HaveZerosOther beta form.now.at.now variables.now.choices.items }
    requires fresh { (p : ℕ) → p < form.now.pairs.now.sites →
        is_marked stage.old.fresh.items p ≡ true → Contains stage.old.fresh_sites.items p }
    requires inside { All (λ p. p < form.now.pairs.now.sites) stage.old.fresh_sites.items }
    ensures closed { IfOk result (λ closed. IsTrue closed → IsClosedIn form.now.pairs.now
        (may_turn_at beta (labelling form.now.at.now)
        (lowest_value variables.now.choices.items bits.now.lower.items)
        (value_of variables.now.choices.items bits.now.upper.items))
        (choice_at variables.now.choices.items) (is_marked stage.new.taken.items)
        (is_marked stage.new.fresh.items)) }
    ensures taken { OnOk result (length stage.new.taken.items ≡ form.now.pairs.now.sites) }
    ensures front { OnOk result (All (λ p. p < form.now.pairs.now.sites) stage.new.front.items) }
    ensures same { KeepsFresh stage.old stage.new }
{
    let alloc = *stage.opened.allocator();
    let turning = list_turning(alloc, form.at, beta, &stage.opened, bits)?;
    stage.close(
        form.pairs,
        form.ends,
        &variables.choices,
        &variables.of_sites,
        &turning,
    )
}

/// The choice of a site once the set is closed: one of the set has what its bound tells, and each
/// other keeps its label.
fn settled_choice(
    numbers: &[u32],
    at: &[u8],
    beta: u8,
    taken: &[bool],
    bits: &[bool],
    site: usize,
) -> Choice
    requires site { (site < length at.now) × (site < length numbers.now) }
    requires taken { length taken.now ≡ length at.now }
    requires number { is_marked taken.now site ≡ true →
        labelling numbers.now site < length bits.now }
    ensures { result ≡ choice_of
        (settled_value numbers.now taken.now bits.now beta (labelling at.now) site) }
{
    if taken[site] {
        choice_with(bits[numbers[site] as usize])
    } else {
        choice_with(at[site] == beta)
    }
}

/// All sites keep their labels: those that are listed, and others that are at 0.
fn keep_listed(choices: &mut Vec<Choice>, own: &[u32], at: &[u8], beta: u8)
    requires count { length choices.old.items ≡ length at.now }
    requires inside { All (λ p. p < length at.now) own.now }
    requires covers { CoversOthers choices.old.items own.now }
    requires zeros { HaveZerosOther beta at.now choices.old.items }
    ensures count { length choices.new.items ≡ length choices.old.items }
    ensures each { (p : ℕ) → p < length at.now →
        choice_at choices.new.items p ≡ choice_of (kept_values beta (labelling at.now) p) }
{
    for index in 0..own.len() {
        let site = own[index] as usize;
        choices[site] = choice_with(at[site] == beta);
    }
}

/// Settles the listed sites, among which are those of the closed set.
fn settle_listed(
    choices: &mut Vec<Choice>,
    numbers: &[u32],
    at: &[u8],
    beta: u8,
    taken: &[bool],
    bits: &[bool],
    opened: &[u32],
)
    requires sites { length choices.old.items ≡ length at.now }
    requires numbers { length numbers.now ≡ length at.now }
    requires taken { length taken.now ≡ length at.now }
    requires number { (p : ℕ) → p < length at.now → is_marked taken.now p ≡ true →
        labelling numbers.now p < length bits.now }
    requires kept { (p : ℕ) → p < length at.now →
        choice_at choices.old.items p ≡ choice_of (kept_values beta (labelling at.now) p) }
    requires inside { All (λ p. p < length at.now) opened.now }
    requires listed { (p : ℕ) → p < length at.now → is_marked taken.now p ≡ true →
        Contains opened.now p }
    ensures count { length choices.new.items ≡ length choices.old.items }
    ensures each { (p : ℕ) → p < length at.now → choice_at choices.new.items p ≡ choice_of
        (settled_value numbers.now taken.now bits.now beta (labelling at.now) p) }
{
    for index in 0..opened.len() {
        let site = opened[index] as usize;
        choices[site] = settled_choice(numbers, at, beta, taken, bits, site);
    }
}

/// Whether both bounds are the same at each site of the closed set: they are, since beside it stand
/// only sites that both keep.
fn are_same(numbers: &[u32], taken: &[bool], bits: &Bits, opened: &[u32]) -> bool
    requires inside { All (λ p. p < length taken.now) opened.now }
    requires numbers { length numbers.now ≡ length taken.now }
    requires number { (p : ℕ) → p < length taken.now → is_marked taken.now p ≡ true →
        (labelling numbers.now p < length bits.now.lower.items)
        × (labelling numbers.now p < length bits.now.upper.items) }
    requires listed { (p : ℕ) → p < length taken.now → is_marked taken.now p ≡ true →
        Contains opened.now p }
    ensures { IsTrue result → AreBoundsSame (length taken.now) numbers.now taken.now
        bits.now.lower.items bits.now.upper.items }
{
    for index in 0..opened.len() {
        let site = opened[index] as usize;
        if taken[site] {
            let number = numbers[site] as usize;
            if bits.lower[number] != bits.upper[number] {
                return false;
            }
        }
    }
    true
}

/// Gives each site its value once the set is closed, and answers whether it did; else nothing
/// changes. It takes time in proportion to the listed sites: those that the swap can change, and
/// the open ones.
fn settle(
    choices: &mut Vec<Choice>,
    own: &[u32],
    numbers: &[u32],
    at: &[u8],
    beta: u8,
    taken: &[bool],
    bits: &Bits,
    opened: &[u32],
) -> bool
    requires sites { length choices.old.items ≡ length at.now }
    requires numbering { IsNumbering choices.old.items numbers.now }
    requires lower { length bits.now.lower.items ≡ open_count choices.old.items }
    requires upper { length bits.now.upper.items ≡ open_count choices.old.items }
    requires taken { length taken.now ≡ length at.now }
    requires open { IsLeftOpen (length at.now) (choice_at choices.old.items) (is_marked taken.now) }
    requires opened { AreOpenSites choices.old.items opened.now }
    requires inside { All (λ p. p < length at.now) own.now }
    requires covers { CoversOthers choices.old.items own.now }
    requires zeros { HaveZerosOther beta at.now choices.old.items }
    ensures count { length choices.new.items ≡ length choices.old.items }
    ensures kept { IsFalse result → choices.new ≡ choices.old }
    ensures each { IsTrue result → (p : ℕ) → p < length at.now → values_in choices.new.items p
        ≡ settled_value numbers.now taken.now bits.now.lower.items beta (labelling at.now) p }
    ensures same { IsTrue result → AreBoundsSame (length at.now) numbers.now taken.now
        bits.now.lower.items bits.now.upper.items }
{
    if !are_same(numbers, taken, bits, opened) {
        return false;
    }
    keep_listed(choices, own, at, beta);
    settle_listed(choices, numbers, at, beta, taken, &bits.lower, opened);
    true
}

/// Finds what the sites get around the open ones, which are listed, and answers whether it did.
/// Else the choices stay, and `front` has sites to open next.
fn end_near(
    form: &SiteForm,
    stage: &mut Stage,
    strips: &mut Strips,
    variables: &mut Variables,
    own: &[u32],
    beta: u8,
) -> Result<bool, AllocError>
    requires { IsSwapStageReady form.now beta own.now variables.old.choices.items stage.old }
    ensures count { OnOk result
        (length variables.new.choices.items ≡ length variables.old.choices.items) }
    ensures kept { IfOk result (λ found. IsFalse found →
        variables.new.choices ≡ variables.old.choices) }
    ensures front { OnOk result (All (λ p. p < form.now.pairs.now.sites) stage.new.front.items) }
    ensures same { KeepsFresh stage.old stage.new }
    ensures listed { IfOk result (λ found. IsTrue found → AreTurnsListed beta form.now.at.now
        (values_in variables.new.choices.items) stage.new.opened.items) }
    ensures least { WhereRead form.now (λ m move f. IfOk result (λ found. IsTrue found →
        IsEndOfSwap m move f beta (is_marked stage.old.fresh.items)
        (choice_at variables.old.choices.items) (values_in variables.new.choices.items))) }
{
    let bits = find_bounds(form, strips, variables, &stage.opened)?;
    if !close_set(form, stage, variables, &bits, beta)? {
        return Ok(false);
    }
    Ok(settle(
        &mut variables.choices,
        own,
        &variables.of_sites,
        form.at,
        beta,
        &stage.taken,
        &bits,
        &stage.opened,
    ))
}

/// One stage of a swap: it finds what the sites get around the open ones, and answers whether it
/// did. Else more sites are open.
fn make_stage(
    form: &SiteForm,
    stage: &mut Stage,
    strips: &mut Strips,
    variables: &mut Variables,
    own: &[u32],
    beta: u8,
) -> Result<bool, AllocError>
    requires { IsSwapStageReady form.now beta own.now variables.old.choices.items stage.old }
    ensures count { OnOk result
        (length variables.new.choices.items ≡ length variables.old.choices.items) }
    ensures zeros { IfOk result (λ found. IsFalse found →
        KeepsZeros variables.old.choices.items variables.new.choices.items) }
    ensures opened { IfOk result (λ found. IsFalse found →
        AreOpenSites variables.new.choices.items stage.new.opened.items) }
    ensures same { (stage.new.fresh ≡ stage.old.fresh)
        × (stage.new.fresh_sites ≡ stage.old.fresh_sites) }
    ensures listed { IfOk result (λ found. IsTrue found → AreTurnsListed beta form.now.at.now
        (values_in variables.new.choices.items) stage.new.opened.items) }
    ensures least { WhereRead form.now (λ m move f. IfOk result (λ found. IsTrue found →
        IsEndOfSwap m move f beta (is_marked stage.old.fresh.items)
        (choice_at variables.old.choices.items) (values_in variables.new.choices.items))) }
{
    if end_near(form, stage, strips, variables, own, beta)? {
        return Ok(true);
    }
    form.pairs.keeps();
    let window = all_sites(form);
    stage.open_front(&mut variables.choices, form.pairs, form.ends, window)?;
    Ok(false)
}

/// Finds what the sites get in a swap that is made once more: it looks at the fresh sites and at
/// what is near them, stage by stage. Before, the sites that the swap can change are open, and
/// listed, and all others at 0; and then each site has its value, and `stage.opened` lists the
/// sites that were looked at. It answers no if no stage closes in the sites that may turn: then the
/// swap is to be made whole. Refuses only where memory runs out. It takes time in proportion to the
/// sites, some bits each, to those that the swap can change, and to those that it looks at and
/// their pairs.
pub fn find_near(
    form: &SiteForm,
    stage: &mut Stage,
    strips: &mut Strips,
    variables: &mut Variables,
    own: &[u32],
    beta: u8,
) -> Result<bool, AllocError>
    requires over { IsOverPairs form.now }
    requires sites { length variables.old.choices.items ≡ length form.now.at.now }
    requires own { AreOpenSites variables.old.choices.items own.now }
    requires none { (p : ℕ) → p < length form.now.at.now →
        choice_at variables.old.choices.items p ≢ One }
    requires zeros { HaveZerosOther beta form.now.at.now variables.old.choices.items }
    requires fresh { (p : ℕ) → p < form.now.pairs.now.sites →
        is_marked stage.old.fresh.items p ≡ true → Contains stage.old.fresh_sites.items p }
    requires inside { All (λ p. p < form.now.pairs.now.sites) stage.old.fresh_sites.items }
    ensures count { OnOk result
        (length variables.new.choices.items ≡ length variables.old.choices.items) }
    ensures listed { IfOk result (λ found. IsTrue found → AreTurnsListed beta form.now.at.now
        (values_in variables.new.choices.items) stage.new.opened.items) }
    ensures least { WhereRead form.now (λ m move f. IfOk result (λ found. IsTrue found →
        IsEndOfSwap m move f beta (is_marked stage.old.fresh.items)
        (choice_at variables.old.choices.items) (values_in variables.new.choices.items))) }
{
    open_near(form, stage, &mut variables.choices, own)?;
    let most = own.len() / OPENED_SHARE;
    for _stage in 0..STAGE_LIMIT {
        if stage.opened.len() > most {
            return Ok(false);
        }
        if make_stage(form, stage, strips, variables, own, beta)? {
            return Ok(true);
        }
    }
    Ok(false)
}
