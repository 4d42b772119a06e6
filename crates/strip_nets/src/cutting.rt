//! A strip, built and cut, and the form of all that is open.
ghost use Rattle.std.specs.Prelude.{◌≡◌, ◌≤◌, ℕ, List, map, length, vec_len};
ghost use Rattle.std.specs.Prelude.{IfOk, OnOk};
ghost use Rattle.label_field.specs.Limits.{site_limit};
ghost use Rattle.label_energies.specs.Energies.{IsInstance};
ghost use Rattle.pseudo_bool.specs.Limits.{term_limit};
ghost use Rattle.compile_cut.specs.Quadratics.{IsQuadraticBounded};
ghost use Rattle.compile_cut.specs.Weights.{weights_size};
ghost use Rattle.move_energy.specs.Choices.{choice_at, open_rank, AreOpenSites, IsNumbering};
ghost use Rattle.move_energy.specs.Choices.{StandsFor};
ghost use Rattle.move_energy.specs.Limits.{weights_limit};
ghost use Rattle.site_bounds.specs.Parts.{site_weight};
ghost use Rattle.site_forms.specs.Numbers.{IsOverPairs, WhereRead};
ghost use Rattle.strip_nets.specs.Building.{CanBuild, AreStartWeights, AreStripSites, AreWeighed};
ghost use Rattle.strip_nets.specs.Looking.{IsStageLeast};
ghost use Rattle.strip_nets.specs.RowForms.{form_in};
ghost use Rattle.strip_nets.specs.Sides.{AreBounds};
ghost use Rattle.strip_nets.specs.Strips.{IsRowForm};
ghost use Rattle.strip_nets.specs.Views.{strip_view};

use crate::building::build_strip;
use crate::material::{Material, Room, StripSites};
use crate::reading::read_weights;
use crate::sides::{row_side, row_sides, write_form};
use compile_cut::Quadratic;
use move_energy::Choice;
use plain_cut::BothSides;
use site_bounds::SiteForm;
use std::alloc::AllocError;

/// Builds a strip whose open sites are listed, and cuts it twice: with the open sites outside it at
/// 0, and with those at 1.
pub fn cut_strip(
    material: &Material,
    sites: &StripSites,
    room: &mut Room,
) -> Result<BothSides, AllocError>
    requires can { CanBuild material.now }
    requires opened { AreStripSites material.now sites.now }
    requires weighed { AreWeighed sites.now }
    ensures lower { IfOk result (λ sides. length sides.lower.items ≡ length sites.now.opened.now) }
    ensures upper { IfOk result (λ sides. length sides.upper.items ≡ length sites.now.opened.now) }
    ensures tells { WhereRead material.now.form (λ m move f.
        AreStartWeights material.now sites.now m move f →
        IfOk result (AreBounds m move f material.now.known.now sites.now.opened.now)) }
{
    let alloc = *room.more.allocator();
    room.stand_again(alloc);
    build_strip(
        material,
        sites,
        &mut room.numbers,
        &mut room.form,
        &mut room.weights,
        &mut room.more,
    )?;
    let sides = row_sides(alloc, &mut room.form, &room.more, &mut room.space)?;
    Ok(sides)
}

/// Lays the form of all open sites in rows. They are listed with what they weighed at the start,
/// and get numbers by site. It takes time in proportion to these sites and their neighbours, and at
/// the first use of the numbers to all sites.
fn lay_open(
    material: &Material,
    opened: &[u32],
    weights: &[i64],
    room: &mut Room,
    numbers: &mut Vec<u32>,
) -> Result<(), AllocError>
    requires can { CanBuild material.now }
    requires opened { AreOpenSites material.now.known.now opened.now }
    requires count { length weights.now ≡ length opened.now }
    requires size { weights_size weights.now ≤ weights_limit }
    ensures numbering { OnOk result (IsNumbering material.now.known.now numbers.new.items) }
    ensures laid { OnOk result
        ((ends : List ℕ) × IsRowForm (length opened.now) ends room.new.form) }
    ensures stands { WhereRead material.now.form (λ m move f.
        weights.now ≡ map (site_weight m move f (choice_at material.now.start.now)) opened.now →
        OnOk result (StandsFor m move f (choice_at material.now.known.now)
        (form_in room.new.form) (open_rank material.now.known.now))) }
{
    let alloc = *room.more.allocator();
    room.stand_again(alloc);
    numbers.resize(material.known.len(), 0)?;
    let sites = StripSites {
        from: 0,
        to: material.known.len() as u32,
        opened,
        weights,
    };
    build_strip(
        material,
        &sites,
        numbers,
        &mut room.form,
        &mut room.weights,
        &mut room.more,
    )?;
    Ok(())
}

/// Writes the form of all open sites, which are listed with what they weighed at the start, and
/// numbers them by site.
pub fn write_open(
    material: &Material,
    opened: &[u32],
    weights: &[i64],
    room: &mut Room,
    numbers: &mut Vec<u32>,
    written: &mut Quadratic,
) -> Result<(), AllocError>
    requires can { CanBuild material.now }
    requires opened { AreOpenSites material.now.known.now opened.now }
    requires count { length weights.now ≡ length opened.now }
    requires size { weights_size weights.now ≤ weights_limit }
    ensures numbering { OnOk result (IsNumbering material.now.known.now numbers.new.items) }
    ensures bounded { OnOk result (IsQuadraticBounded term_limit written.new) }
    ensures few { OnOk result (vec_len written.new.weights ≤ site_limit) }
    ensures nodes { OnOk result (vec_len written.new.weights ≡ length opened.now) }
    ensures stands { WhereRead material.now.form (λ m move f.
        weights.now ≡ map (site_weight m move f (choice_at material.now.start.now)) opened.now →
        OnOk result (StandsFor m move f (choice_at material.now.known.now) written.new
        (open_rank material.now.known.now))) }
{
    lay_open(material, opened, weights, room, numbers)?;
    write_form(&room.form, written)?;
    Ok(())
}

/// Cuts all open sites, which are listed with what they weighed at the start, and numbers them by
/// site: a bit for each. The bits and what is known are the least values, with the fewest ones, of
/// what is open.
pub fn cut_open(
    material: &Material,
    opened: &[u32],
    weights: &[i64],
    room: &mut Room,
    numbers: &mut Vec<u32>,
) -> Result<Vec<bool>, AllocError>
    requires can { CanBuild material.now }
    requires opened { AreOpenSites material.now.known.now opened.now }
    requires count { length weights.now ≡ length opened.now }
    requires size { weights_size weights.now ≤ weights_limit }
    ensures numbering { OnOk result (IsNumbering material.now.known.now numbers.new.items) }
    ensures count { IfOk result (λ bits. length bits.items ≡ length opened.now) }
    ensures least { WhereRead material.now.form (λ m move f.
        weights.now ≡ map (site_weight m move f (choice_at material.now.start.now)) opened.now →
        IfOk result (λ bits. IsStageLeast m move f material.now.known.now bits.items)) }
{
    let alloc = *room.more.allocator();
    lay_open(material, opened, weights, room, numbers)?;
    let bits = row_side(alloc, &mut room.form, &mut room.space)?;
    Ok(bits)
}

/// Builds a strip from what its open sites weigh by what is known, and cuts it twice.
pub fn cut_read(
    form: &SiteForm,
    known: &[Choice],
    from: u32,
    to: u32,
    opened: &[u32],
    weights: &mut Vec<i64>,
    room: &mut Room,
) -> Result<BothSides, AllocError>
    requires over { IsOverPairs form.now }
    requires count { length known.now ≡ length form.now.at.now }
    requires opened { AreOpenSites (strip_view known.now from to) opened.now }
    ensures lower { IfOk result (λ sides. length sides.lower.items ≡ length opened.now) }
    ensures upper { IfOk result (λ sides. length sides.upper.items ≡ length opened.now) }
    ensures tells { WhereRead form.now (λ m move f. IsInstance m →
        IfOk result (AreBounds m move f known.now opened.now)) }
{
    read_weights(weights, form, known, from, to, opened)?;
    let material = Material {
        form: *form,
        start: known,
        known,
    };
    let sites = StripSites {
        from,
        to,
        opened,
        weights,
    };
    cut_strip(&material, &sites, room)
}
