//! The least assignment of an energy with the fewest ones, by an expansion of label 1 from label 0.
ghost use Rattle.std.specs.Prelude.{◌≡◌, ◌<◌, ◌≤◌, ◌==◌, ◌/◌, ◌%◌, ◌*◌, ℕ, IfSome, IfOk, length};
ghost use Rattle.std.specs.Prelude.{pos, replicate, slice_index, unsigned_abs, vec_len};
ghost use Rattle.label_energies.specs.Moves.{IsBest};
ghost use Rattle.label_energies.specs.declared.change.Move.TheVariants.{Expand};
ghost use Rattle.cost_store.specs.Limits.{site_cost_limit, pair_cost_limit};
ghost use Rattle.pseudo_bool.specs.Energies.{assignment, entry};
ghost use Rattle.regular.specs.Regularity.{IsRegular};
ghost use Rattle.compile_cut.specs.Shown.{IsSmallestLeastAssignment};
ghost use Rattle.form_costs.specs.FormCosts.{AreFormPairs, side_cost, capacity_in, arc_cost};
ghost use Rattle.form_costs.specs.FormCosts.{instance_of_form};

use compile_cut::{Arc, Quadratic, quadratic_of};
use cost_store::{DataCost, Problem, SmoothCost};
use cut_ways::Sharing;
use form_costs::pairs_of_form;
use label_energies::Move;
use label_field::{Labelling, Pairs};
use one_move::{Workspace, make_move};
use pseudo_bool::Energy;
use std::alloc::{AllocError, Global};

/// What a label costs a site whose node has this weight.
fn cost_of_side(weight: i64, label: u32) -> i64
    requires { unsigned_abs weight ≤ site_cost_limit }
    ensures { result ≡ pos (side_cost weight label) }
{
    if label == 0 {
        if weight < 0 { -weight } else { 0 }
    } else if weight > 0 {
        weight
    } else {
        0
    }
}

/// What two labels cost the pair of an arc.
fn cost_of_arc(arcs: &[Arc], number: u32, first: u32, second: u32) -> i64
    requires number { number < length arcs.now }
    requires small { capacity_in arcs.now number ≤ pair_cost_limit }
    ensures { result ≡ pos (arc_cost arcs.now number first second) }
{
    if first == 0 && second > 0 {
        arcs[number as usize].capacity as i64
    } else {
        0
    }
}

/// Of each of the first so many sites whether it has label 1.
fn list_ones(alloc: Global, at: &[u8], count: u32) -> Result<Vec<bool>, AllocError>
    requires { count ≤ length at.now }
    ensures count { IfOk result (λ bits. length bits.items ≡ count) }
    ensures each { IfOk result (λ bits. (p : ℕ) → p < count →
        assignment bits.items p ≡ (slice_index at.now p == 1)) }
{
    let mut bits = Vec::new(alloc);
    for site in 0..count {
        bits.push(at[site as usize] == 1)?;
    }
    Ok(bits)
}

/// The best labelling that an expansion of label 1 from label 0 reaches, by what a form costs.
/// Nothing where the move is refused.
fn expand_form<H: Sharing>(
    alloc: Global,
    form: &Quadratic,
    pairs: Pairs,
    how: &H,
) -> Option<Labelling>
    requires ready { H.ready how.now }
    requires pairs { AreFormPairs form.now pairs }
    ensures { IfSome result (λ labelling. IsBest (instance_of_form form.now pairs) (Expand 1)
        (replicate (vec_len form.now.weights) 0) labelling.at) }
{
    let sites = pairs.sites();
    let count = pairs.len() as u32;
    let weights = form.weights.as_slice();
    let arcs = form.arcs.as_slice();
    let data_cost = DataCost::new(
        |site: u32, label: u32| -> i64
            requires site { site < length weights.now }
            requires small { unsigned_abs (entry weights.now site) ≤ site_cost_limit }
            ensures { result ≡ pos (side_cost (entry weights.entry.now site) label) }
        { cost_of_side(weights[site as usize], label) },
        sites,
        2,
    );
    let pair_costs = SmoothCost::by_pair(
        |line: u32, second: u32| -> i64
            requires pair { line / 2 < length arcs.now }
            requires small { capacity_in arcs.now (line / 2) ≤ pair_cost_limit }
            ensures { result ≡ pos (arc_cost arcs.entry.now (line / 2) (line % 2) second) }
        { cost_of_arc(arcs, line / 2, line % 2, second) },
        2,
        count,
    );
    let problem = Problem::by_pair(pairs, data_cost, pair_costs);
    let Ok(mut labelling) = Labelling::new(alloc, sites, 2) else {
        return None;
    };
    let mut space = Workspace::new(alloc);
    let Ok(_) = make_move(
        alloc,
        &problem,
        &mut space,
        &mut labelling,
        Move::Expand(1),
        how,
    ) else {
        return None;
    };
    Some(labelling)
}

/// The least assignment of an energy with the fewest ones. Nothing where its form is not what
/// labels cost, or the move is refused.
pub(crate) fn least_by_move<H: Sharing>(
    alloc: Global,
    energy: &Energy,
    how: &H,
) -> Option<Vec<bool>>
    requires ready { H.ready how.now }
    requires regular { IsRegular energy.now }
    ensures count { IfSome result (λ bits. length bits.items ≡ energy.now.variables) }
    ensures best { IfSome result
        (λ bits. IsSmallestLeastAssignment energy.now (assignment bits.items)) }
{
    let Ok(form) = quadratic_of(alloc, energy) else {
        return None;
    };
    let Ok(Some(pairs)) = pairs_of_form(alloc, &form) else {
        return None;
    };
    let Some(labelling) = expand_form(alloc, &form, pairs, how) else {
        return None;
    };
    let Ok(bits) = list_ones(alloc, labelling.as_slice(), energy.variables()) else {
        return None;
    };
    Some(bits)
}
