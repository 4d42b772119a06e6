//! Deciding the sites of a move.
ghost use Rattle.std.specs.Prelude.{◌≡◌, ◌≤◌, [], length, IfOk, IfErr, OnOk, OnErr, false};
ghost use Rattle.site_bounds.specs.Prelude.{AreBySite, choice_at, AreAllOpen, IsPrepareRefusal};
ghost use Rattle.site_bounds.specs.Prelude.{labelling, WhereMeant, IsDecidedMove, IsAskedBySite};
ghost use Rattle.site_bounds.specs.Prelude.{KnowsMove, AreListsEmpty, AreFormLists, IsReadOf};
ghost use Rattle.site_bounds.specs.Prelude.{ArePassedChoices, AreOfNoSites, IsAllowed};
ghost use Rattle.site_bounds.specs.Prelude.{KnowsCosts, HasNoCosts, label_limit, site_limit};
ghost use Rattle.site_bounds.specs.Prelude.{IsSwap, AreOpenSites, IsPosed, IsAsked};
ghost use Rattle.site_bounds.specs.Prelude.{IsOverPairs, AreUnsummed, DecidesSites, AreUndecided};
ghost use Rattle.label_energies.specs.Moves.{IsMoveOf};
ghost use Rattle.form_lists.specs.Lists.{CoversChanges, HasTermsOf};
ghost use Rattle.move_energy.specs.Terms.{AreTermsTested};

use crate::{Bounds, LabelSites, Lists};
use cost_store::Problem;
use form_lists::FormLists;
use label_energies::Move;
use label_field::Pairs;
use move_energy::{BuildError, Choice, Neighbours, group_pairs, test_terms};
use site_forms::SiteForm;
use std::alloc::{AllocError, Global};

/// The neighbours of each site by a list of pairs, made once a run, and the room in which the sites
/// of a move are decided.
#[derive(Drop)]
pub struct Deciding {
    pub ends: Neighbours,
    pub bounds: Bounds,
    pub lists: Lists,
    pub numbers: FormLists,
    /// The sites that the last swap can change, in rising order.
    pub swapped: Vec<u32>,
    /// The sites of each label, by which those are found.
    pub by_label: LabelSites,
}

/// Opens the sites that a move can change. Those of a swap, which can be few, are listed.
fn open_move(
    bounds: &mut Bounds,
    by_label: &mut LabelSites,
    swapped: &mut Vec<u32>,
    at: &[u8],
    change: Move,
) -> Result<(), AllocError>
    requires small { length at.now ≤ site_limit }
    requires labels { IsMoveOf label_limit change }
    ensures undecided { OnOk result (AreUndecided change at.now bounds.new) }
    ensures listed { OnOk result
        (IsSwap change → AreOpenSites bounds.new.choices.items swapped.new.items) }
{
    match change {
        Move::Expand(_) => bounds.open_sites(at, change),
        Move::Swap(alpha, beta) => bounds.open_swapped(by_label, swapped, at, alpha, beta),
    }
}

/// Reads the costs of a move. Of a swap, whose sites are listed, no other is looked at.
fn read_costs<F: Fn(u32, u32) -> i64 + Sync, V: Fn(u32, u32) -> i64 + Sync>(
    numbers: &mut FormLists,
    swapped: &[u32],
    problem: &Problem<F, V>,
    ends: &Neighbours,
    at: &[u8],
    change: Move,
) -> Result<(), AllocError>
    requires posed { IsPosed F.Fn V.Fn problem.now }
    requires asked { IsAsked problem.now at.now change }
    requires by_site { AreBySite problem.now.pairs ends.now }
    requires few { problem.now.data_cost.labels ≤ label_limit }
    requires known { KnowsCosts F.Fn V.Fn problem.now numbers.old }
    requires covers { IsSwap change → CoversChanges change at.now swapped.now }
    ensures known { KnowsCosts F.Fn V.Fn problem.now numbers.new }
    ensures lists { OnOk result (AreFormLists problem.now.pairs ends.now at.now numbers.new) }
    ensures read { OnOk result (WhereMeant F.Fn V.Fn problem.now
        (λ m. IsReadOf m change ends.now at.now numbers.new)) }
    ensures terms { OnOk result (WhereMeant F.Fn V.Fn problem.now
        (λ m. HasTermsOf m change at.now numbers.new)) }
{
    match change {
        Move::Expand(_) => numbers.read(problem, ends, at, change),
        Move::Swap(_, _) => numbers.read_among(problem, ends, at, change, swapped),
    }
}

/// Reads the costs of a move and tests its terms. Where each pair has costs of its own, they are
/// asked once for both.
fn read_tested<F: Fn(u32, u32) -> i64 + Sync, V: Fn(u32, u32) -> i64 + Sync>(
    numbers: &mut FormLists,
    swapped: &[u32],
    problem: &Problem<F, V>,
    ends: &Neighbours,
    at: &[u8],
    change: Move,
) -> Result<(), BuildError>
    requires posed { IsPosed F.Fn V.Fn problem.now }
    requires asked { IsAsked problem.now at.now change }
    requires by_site { AreBySite problem.now.pairs ends.now }
    requires few { problem.now.data_cost.labels ≤ label_limit }
    requires known { KnowsCosts F.Fn V.Fn problem.now numbers.old }
    requires covers { IsSwap change → CoversChanges change at.now swapped.now }
    ensures known { KnowsCosts F.Fn V.Fn problem.now numbers.new }
    ensures tested { WhereMeant F.Fn V.Fn problem.now
        (λ m. AreTermsTested m change (labelling at.now) result) }
    ensures lists { OnOk result (AreFormLists problem.now.pairs ends.now at.now numbers.new) }
    ensures read { OnOk result (WhereMeant F.Fn V.Fn problem.now
        (λ m. IsReadOf m change ends.now at.now numbers.new)) }
{
    if problem.pairs.are_numbered() {
        read_costs(numbers, swapped, problem, ends, at, change)?;
        return numbers.test_terms();
    }
    test_terms(problem, at, change)?;
    read_costs(numbers, swapped, problem, ends, at, change)?;
    Ok(())
}

/// Decides the open sites of a move. Of a swap, of which they are listed, no other is looked at.
fn decide_open(
    bounds: &mut Bounds,
    form: &SiteForm,
    change: Move,
    swapped: &[u32],
) -> Result<(), AllocError>
    requires over { IsOverPairs form.now }
    requires unsummed { AreUnsummed (length form.now.at.now) bounds.old }
    requires listed { IsSwap change → AreOpenSites bounds.old.choices.items swapped.now }
    ensures { OnOk result (DecidesSites form.now bounds.old bounds.new) }
{
    match change {
        Move::Expand(_) => bounds.decide_sites(form),
        Move::Swap(_, _) => bounds.decide_among(form, swapped),
    }
}

impl Deciding {
    /// Of no pairs, with nothing known of any site. It takes no memory.
    pub fn empty(alloc: Global) -> Deciding
        ensures listed { result.lists.listed ≡ false }
        ensures ends { (result.ends.starts.items ≡ []) × (result.ends.heads.items ≡ []) }
        ensures bounds { AreOfNoSites result.bounds }
        ensures lists { AreListsEmpty result.lists }
        ensures costs { HasNoCosts result.numbers }
    {
        Deciding {
            ends: Neighbours::empty(alloc),
            bounds: Bounds::new(alloc),
            lists: Lists::empty(alloc),
            numbers: FormLists::empty(alloc),
            swapped: Vec::new(alloc),
            by_label: LabelSites::empty(alloc),
        }
    }

    /// Room for the moves of a run over these pairs. Nothing is known of any site yet.
    pub fn new(alloc: Global, pairs: &Pairs) -> Result<Deciding, AllocError>
        ensures by_site { IfOk result (λ d. AreBySite pairs.now d.ends) }
        ensures bounds { IfOk result (λ d. AreOfNoSites d.bounds) }
        ensures lists { IfOk result (λ d. AreListsEmpty d.lists) }
        ensures costs { IfOk result (λ d. HasNoCosts d.numbers) }
    {
        Ok(Deciding {
            ends: group_pairs(alloc, pairs)?,
            bounds: Bounds::new(alloc),
            lists: Lists::empty(alloc),
            numbers: FormLists::empty(alloc),
            swapped: Vec::new(alloc),
            by_label: LabelSites::empty(alloc),
        })
    }

    /// Decides the sites of a move, one after another, until none can be told: `bounds.choices`
    /// says of each site that it keeps its label or what else its variable has at 0 (`Zero`), that
    /// it takes the label of the move (`One`), or that a cut has to tell (`Open`). Turning a site
    /// that was decided the other way would raise the energy, or not lower it, whatever the open
    /// sites do. Refused: the first pair whose term is not regular; smooth costs that were stored
    /// as a metric are not tested, since a metric makes no other term.
    ///
    /// Sites that the move cannot change are `Zero` from the beginning. Those that a swap can
    /// change are listed, and then no other is looked at. It looks at the pairs of each site that
    /// the move can change once, and once more where it decides the site (Iyer, Jegelka, Bilmes,
    /// ICML 2013). A site that it decides as soon as it is summed is not looked at again if none of
    /// its neighbours before it is open. Then `bounds.greatest` says of each open site by how much
    /// the energy rises where it turns to 1 while every other open site is at 0; `lists` has how
    /// many sites are open, and lists them where they are few; `numbers` has the costs of the move.
    /// Where it refuses, nothing is listed, and no more is said of `bounds` and `lists`.
    pub fn decide<F: Fn(u32, u32) -> i64 + Sync, V: Fn(u32, u32) -> i64 + Sync>(
        &mut self,
        problem: &Problem<F, V>,
        at: &[u8],
        change: Move,
    ) -> Result<(), BuildError>
        requires asked { IsAskedBySite F.Fn V.Fn problem.now at.now change self.old.ends }
        requires few { problem.now.data_cost.labels ≤ label_limit }
        requires known { KnowsCosts F.Fn V.Fn problem.now self.old.numbers }
        ensures kept { self.new.ends ≡ self.old.ends }
        ensures costs { KnowsCosts F.Fn V.Fn problem.now self.new.numbers }
        ensures known { OnOk result (KnowsMove F.Fn V.Fn problem.now at.now change self.new) }
        ensures decided { WhereMeant F.Fn V.Fn problem.now (λ m. IsDecidedMove m change at.now
            self.new.bounds.choices.items result) }
        ensures refused { OnErr result (self.new.lists.listed ≡ false) }
    {
        self.lists.listed = false;
        open_move(
            &mut self.bounds,
            &mut self.by_label,
            &mut self.swapped,
            at,
            change,
        )?;
        read_tested(
            &mut self.numbers,
            &self.swapped,
            problem,
            &self.ends,
            at,
            change,
        )?;
        let form = self.numbers.form(&problem.pairs, &self.ends, at);
        decide_open(&mut self.bounds, &form, change, &self.swapped)?;
        self.lists
            .fill_rest(at, change, &self.bounds.choices, &self.swapped)?;
        Ok(())
    }

    /// Opens the sites of a move, and reads the costs by which threads decide them into `numbers`.
    /// Those of a swap are listed in `swapped`. Refused as `decide` is.
    pub fn open<F: Fn(u32, u32) -> i64 + Sync, V: Fn(u32, u32) -> i64 + Sync>(
        &mut self,
        problem: &Problem<F, V>,
        at: &[u8],
        change: Move,
    ) -> Result<(), BuildError>
        requires asked { IsAskedBySite F.Fn V.Fn problem.now at.now change self.old.ends }
        requires few { problem.now.data_cost.labels ≤ label_limit }
        requires known { KnowsCosts F.Fn V.Fn problem.now self.old.numbers }
        ensures kept { self.new.ends ≡ self.old.ends }
        ensures costs { KnowsCosts F.Fn V.Fn problem.now self.new.numbers }
        ensures listed { self.new.lists.listed ≡ false }
        ensures opened { OnOk result (AreAllOpen change at.now self.new.bounds.choices.items) }
        ensures swapped { OnOk result (IsSwap change →
            AreOpenSites self.new.bounds.choices.items self.new.swapped.items) }
        ensures lists { OnOk result
            (AreFormLists problem.now.pairs self.new.ends at.now self.new.numbers) }
        ensures read { WhereMeant F.Fn V.Fn problem.now (λ m. OnOk result
            (IsAllowed m change (labelling at.now) × IsReadOf m change self.new.ends at.now
            self.new.numbers)) }
        ensures passed { WhereMeant F.Fn V.Fn problem.now (λ m. OnOk result
            (ArePassedChoices m change (labelling at.now)
            (choice_at self.new.bounds.choices.items))) }
        ensures refused { WhereMeant F.Fn V.Fn problem.now (λ m.
            IfErr result (IsPrepareRefusal m change (labelling at.now))) }
    {
        self.lists.listed = false;
        open_move(
            &mut self.bounds,
            &mut self.by_label,
            &mut self.swapped,
            at,
            change,
        )?;
        read_tested(
            &mut self.numbers,
            &self.swapped,
            problem,
            &self.ends,
            at,
            change,
        )?;
        Ok(())
    }
}
