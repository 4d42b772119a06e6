//! Strip after strip: each is built with what is known by then, and what its two sides tell is
//! known from then on.
ghost use Rattle.std.specs.Prelude.{◌≡◌, ◌<◌, ◌≤◌, [], ℕ, All, List, map, length};
ghost use Rattle.std.specs.Prelude.{vec_len, OnOk, IfOk};
ghost use Rattle.label_field.specs.Limits.{site_limit};
ghost use Rattle.label_energies.specs.Energies.{IsInstance};
ghost use Rattle.pseudo_bool.specs.Limits.{term_limit};
ghost use Rattle.compile_cut.specs.Quadratics.{IsQuadraticBounded};
ghost use Rattle.move_energy.specs.Choices.{choice_at, choice_of, value_of, open_count};
ghost use Rattle.move_energy.specs.Choices.{open_rank, AreOpenSites, IsNumbering, StandsFor};
ghost use Rattle.move_energy.specs.declared.choice.Choice.{Choice as AnyChoice};
ghost use Rattle.move_energy.specs.Weights.{weight_at, AreWeights};
ghost use Rattle.move_energy.specs.MoveValues.{move_value};
ghost use Rattle.site_forms.specs.Numbers.{IsOverPairs, WhereRead};
ghost use Rattle.persistency.specs.Agreeing.{Agree};
ghost use Rattle.persistency.specs.Fixing.{AreLeastZeros};
ghost use Rattle.strip_nets.specs.Looking.{IsStageLeast};
ghost use Rattle.strip_nets.specs.Views.{KeepsChosen, strip_view};
ghost use Rattle.strips.specs.Closing.{IsBasisOf, CanClose};
ghost use Rattle.strips.specs.Parts.{EndsWithStrip};
ghost use Rattle.strips.specs.Telling.{IsAsTold};

use crate::basis::Basis;
use crate::opening::list_next;
use crate::telling::tell_strip;
use compile_cut::Quadratic;
use move_energy::{Choice, Variables};
use plain_cut::BothSides;
use site_bounds::SiteForm;
use std::alloc::{AllocError, Global};
use std::mem::swap;
use strip_nets::{
    Material, Room, StripSites, cut_open, cut_read, cut_strip, read_weights, write_open,
};

/// The open sites of a strip, what each weighed at the start, and the lists with which strips are
/// built and cut. All keep their memory from strip to strip and from move to move.
#[derive(Drop)]
pub struct Strips {
    pub opened: Vec<u32>,
    left: Vec<u32>,
    weights: Vec<i64>,
    pub(crate) room: Room,
}

/// What is known at the start: what was decided.
fn know_start(known: &mut Vec<Choice>, start: &[Choice]) -> Result<(), AllocError>
    ensures { OnOk result (known.new.items ≡ start.now) }
{
    known.clear();
    known.extend_from_slice(start)?;
    Ok(())
}

/// Lists what the listed sites weighed at the start.
fn list_weights(list: &mut Vec<i64>, weights: &[i64], opened: &[u32]) -> Result<(), AllocError>
    requires sites { All (λ site. site < length weights.now) opened.now }
    ensures { OnOk result (list.new.items ≡ map (weight_at weights.now) opened.now) }
{
    list.clear();
    list.reserve(opened.len())?;
    for index in 0..opened.len() {
        list.push_reserved(weights[opened[index] as usize]);
    }
    Ok(())
}

impl Strips {
    /// Of no strip. It takes no memory.
    pub fn new(alloc: Global) -> Strips
        ensures { result.opened.items ≡ [] }
    {
        Strips {
            opened: Vec::new(alloc),
            left: Vec::new(alloc),
            weights: Vec::new(alloc),
            room: Room::new(alloc),
        }
    }

    /// Takes over what both sides of a strip tell of its open sites, and lists those of them that
    /// are left.
    fn tell(&mut self, known: &mut Vec<Choice>, sides: &BothSides) -> Result<(), AllocError>
        requires sites { All (λ site. site < length known.old.items) self.old.opened.items }
        requires lower { length sides.now.lower.items ≡ length self.old.opened.items }
        requires upper { length sides.now.upper.items ≡ length self.old.opened.items }
        ensures count { length known.new.items ≡ length known.old.items }
        ensures told { IsAsTold known.old.items known.new.items self.old.opened.items sides.now }
        ensures opened { (from to : ℕ) →
            AreOpenSites (strip_view known.old.items from to) self.old.opened.items →
            OnOk result (AreOpenSites (strip_view known.new.items from to)
            self.new.opened.items) }
    {
        self.left.clear();
        tell_strip(known, &self.opened, &mut self.left, sides)?;
        swap(&mut self.opened, &mut self.left);
        Ok(())
    }

    /// Closes in a strip from the weights at the start: the listed open sites before a site. It
    /// lists those that are left.
    fn close_weighed(
        &mut self,
        form: &SiteForm,
        basis: &Basis,
        known: &mut Vec<Choice>,
        to: u32,
    ) -> Result<(), AllocError>
        requires can { CanClose form.now basis.now known.old.items }
        requires opened { AreOpenSites (strip_view known.old.items 0 to) self.old.opened.items }
        ensures can { OnOk result (CanClose form.now basis.now known.new.items) }
        ensures opened { OnOk result
            (AreOpenSites (strip_view known.new.items 0 to) self.new.opened.items) }
        ensures agree { WhereRead form.now (λ m move f.
            AreWeights m move f (choice_at basis.now.start.now) basis.now.weights.now →
            Agree m.sites (move_value m move f) (choice_at known.old.items) →
            OnOk result (Agree m.sites (move_value m move f) (choice_at known.new.items))) }
    {
        list_weights(&mut self.weights, basis.weights, &self.opened)?;
        let material = Material {
            form: *form,
            start: basis.start,
            known,
        };
        let sites = StripSites {
            from: 0,
            to,
            opened: &self.opened,
            weights: &self.weights,
        };
        let sides = cut_strip(&material, &sites, &mut self.room)?;
        self.tell(known, &sides)
    }

    /// Closes in a strip by what is known: the listed open sites from one on, before another. It
    /// lists those that are left.
    pub(crate) fn close_read(
        &mut self,
        form: &SiteForm,
        known: &mut Vec<Choice>,
        from: u32,
        to: u32,
    ) -> Result<(), AllocError>
        requires over { IsOverPairs form.now }
        requires count { length known.old.items ≡ length form.now.at.now }
        requires opened { AreOpenSites (strip_view known.old.items from to)
            self.old.opened.items }
        ensures count { length known.new.items ≡ length known.old.items }
        ensures goes_on { (start : List AnyChoice) → KeepsChosen start known.old.items →
            KeepsChosen start known.new.items }
        ensures opened { OnOk result
            (AreOpenSites (strip_view known.new.items from to) self.new.opened.items) }
        ensures agree { WhereRead form.now (λ m move f. IsInstance m →
            Agree m.sites (move_value m move f) (choice_at known.old.items) →
            OnOk result (Agree m.sites (move_value m move f) (choice_at known.new.items))) }
        ensures ends { WhereRead form.now (λ m move f. IsInstance m →
            Agree m.sites (move_value m move f) (choice_at known.old.items) →
            OnOk result (EndsWithStrip m move f known.old.items from to
            (choice_at known.new.items))) }
    {
        let sides = cut_read(
            form,
            known,
            from,
            to,
            &self.opened,
            &mut self.weights,
            &mut self.room,
        )?;
        self.tell(known, &sides)
    }

    /// Cuts all open sites, which are listed, from what each site weighed at the start, and numbers
    /// them by site: a bit for each. The bits and what is known are the least values, with the
    /// fewest ones, of what is open. It takes time in proportion to the open sites and their
    /// neighbours, and at the first use to all sites. It refuses only where memory runs out.
    pub fn look(
        &mut self,
        form: &SiteForm,
        basis: &Basis,
        known: &[Choice],
        opened: &[u32],
        numbers: &mut Vec<u32>,
    ) -> Result<Vec<bool>, AllocError>
        requires can { CanClose form.now basis.now known.now }
        requires opened { AreOpenSites known.now opened.now }
        ensures numbering { OnOk result (IsNumbering known.now numbers.new.items) }
        ensures count { IfOk result (λ bits. length bits.items ≡ open_count known.now) }
        ensures least { WhereRead form.now (λ m move f.
            AreWeights m move f (choice_at basis.now.start.now) basis.now.weights.now →
            IfOk result (λ bits. IsStageLeast m move f known.now bits.items)) }
    {
        list_weights(&mut self.weights, basis.weights, opened)?;
        let material = Material {
            form: *form,
            start: basis.start,
            known,
        };
        let bits = cut_open(&material, opened, &self.weights, &mut self.room, numbers)?;
        Ok(bits)
    }

    /// The same, where it is not known what the sites weigh, by numbers alone: that is read of each
    /// open site and its neighbours. Those that count as 1 may be 0 at the end. Where each zero was
    /// known for good, each zero of the bits is one for good (`zeros`).
    pub fn look_read(
        &mut self,
        form: &SiteForm,
        known: &[Choice],
        opened: &[u32],
        numbers: &mut Vec<u32>,
    ) -> Result<Vec<bool>, AllocError>
        requires over { IsOverPairs form.now }
        requires count { length known.now ≡ length form.now.at.now }
        requires opened { AreOpenSites known.now opened.now }
        ensures numbering { OnOk result (IsNumbering known.now numbers.new.items) }
        ensures count { IfOk result (λ bits. length bits.items ≡ open_count known.now) }
        ensures least { WhereRead form.now (λ m move f. IsInstance m →
            IfOk result (λ bits. IsStageLeast m move f known.now bits.items)) }
        ensures zeros { WhereRead form.now (λ m move f. IsInstance m →
            AreLeastZeros m.sites (move_value m move f) (choice_at known.now) →
            IfOk result (λ bits. AreLeastZeros m.sites (move_value m move f)
            (λ p. choice_of (value_of known.now bits.items p)))) }
    {
        let to = form.at.len() as u32;
        read_weights(&mut self.weights, form, known, 0, to, opened)?;
        let material = Material {
            form: *form,
            start: known,
            known,
        };
        let bits = cut_open(&material, opened, &self.weights, &mut self.room, numbers)?;
        Ok(bits)
    }

    /// Closes in all strips but the last, so many sites each and what the strip before left open.
    /// It leaves the choices that are known then, and a list of the open sites, all of the last
    /// strip: their least values are what is left to be found. It numbers sites in the memory of
    /// the variables' numbers, which hold nothing of use afterwards.
    pub fn close_in(
        &mut self,
        form: &SiteForm,
        basis: &Basis,
        variables: &mut Variables,
        size: usize,
    ) -> Result<(), AllocError>
        requires begins { IsBasisOf form.now basis.now }
        requires some { 0 < size }
        ensures can { OnOk result (CanClose form.now basis.now variables.new.choices.items) }
        ensures opened { OnOk result
            (AreOpenSites variables.new.choices.items self.new.opened.items) }
        ensures agree { WhereRead form.now (λ m move f.
            AreWeights m move f (choice_at basis.now.start.now) basis.now.weights.now →
            Agree m.sites (move_value m move f) (choice_at basis.now.start.now) →
            OnOk result (Agree m.sites (move_value m move f)
            (choice_at variables.new.choices.items))) }
    {
        know_start(&mut variables.choices, basis.start)?;
        swap(&mut variables.of_sites, &mut self.room.numbers);
        self.room.numbers.resize(basis.start.len(), 0)?;
        self.opened.clear();
        let all = basis.start.len() as u32;
        let mut to = list_next(&variables.choices, &mut self.opened, 0, 0, all, size)?;
        'strips: while to < all {
            self.close_weighed(form, basis, &mut variables.choices, to)?;
            let more = size.max(self.opened.len());
            to = list_next(&variables.choices, &mut self.opened, 0, to, all, more)?;
        }
        swap(&mut variables.of_sites, &mut self.room.numbers);
        Ok(())
    }

    /// Lists all open sites, for which all sites are passed.
    pub fn list_open(&mut self, known: &[Choice]) -> Result<(), AllocError>
        requires few { length known.now ≤ site_limit }
        ensures opened { OnOk result (AreOpenSites known.now self.new.opened.items) }
    {
        self.opened.clear();
        let all = known.len() as u32;
        list_next(known, &mut self.opened, 0, 0, all, usize::MAX)?;
        Ok(())
    }

    /// The form of a move over all its open sites, which are listed, from what each site weighed at
    /// the start, and their numbers by site. It takes time in proportion to the open sites and
    /// their neighbours, and at the first use to all sites. It refuses only where memory runs out.
    pub fn build_open(
        &mut self,
        form: &SiteForm,
        basis: &Basis,
        known: &[Choice],
        opened: &[u32],
        numbers: &mut Vec<u32>,
        written: &mut Quadratic,
    ) -> Result<(), AllocError>
        requires can { CanClose form.now basis.now known.now }
        requires opened { AreOpenSites known.now opened.now }
        ensures numbering { OnOk result (IsNumbering known.now numbers.new.items) }
        ensures bounded { OnOk result (IsQuadraticBounded term_limit written.new) }
        ensures few { OnOk result (vec_len written.new.weights ≤ site_limit) }
        ensures nodes { OnOk result (vec_len written.new.weights ≡ length opened.now) }
        ensures stands { WhereRead form.now (λ m move f.
            AreWeights m move f (choice_at basis.now.start.now) basis.now.weights.now →
            OnOk result (StandsFor m move f (choice_at known.now) written.new
            (open_rank known.now))) }
    {
        list_weights(&mut self.weights, basis.weights, opened)?;
        let material = Material {
            form: *form,
            start: basis.start,
            known,
        };
        write_open(
            &material,
            opened,
            &self.weights,
            &mut self.room,
            numbers,
            written,
        )
    }

    /// The same, where it is not known what the sites weigh: that is read of each open site and its
    /// neighbours.
    pub fn build_read(
        &mut self,
        form: &SiteForm,
        known: &[Choice],
        opened: &[u32],
        numbers: &mut Vec<u32>,
        written: &mut Quadratic,
    ) -> Result<(), AllocError>
        requires over { IsOverPairs form.now }
        requires count { length known.now ≡ length form.now.at.now }
        requires opened { AreOpenSites known.now opened.now }
        ensures numbering { OnOk result (IsNumbering known.now numbers.new.items) }
        ensures bounded { OnOk result (IsQuadraticBounded term_limit written.new) }
        ensures few { OnOk result (vec_len written.new.weights ≤ site_limit) }
        ensures nodes { OnOk result (vec_len written.new.weights ≡ length opened.now) }
        ensures stands { WhereRead form.now (λ m move f.
            OnOk result (StandsFor m move f (choice_at known.now) written.new
            (open_rank known.now))) }
    {
        let to = form.at.len() as u32;
        read_weights(&mut self.weights, form, known, 0, to, opened)?;
        let material = Material {
            form: *form,
            start: known,
            known,
        };
        write_open(
            &material,
            opened,
            &self.weights,
            &mut self.room,
            numbers,
            written,
        )
    }
}
