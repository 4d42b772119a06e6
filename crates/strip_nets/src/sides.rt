//! The two cuts of a strip's form.
ghost use Rattle.std.specs.Prelude.{◌≡◌, ◌≤◌, IfOk, OnOk, Bool, List, ℕ, length, sum};
ghost use Rattle.std.specs.Prelude.{vec_len};
ghost use Rattle.pseudo_bool.specs.Energies.{assignment};
ghost use Rattle.pseudo_bool.specs.Limits.{term_limit};
ghost use Rattle.compile_cut.specs.declared.quadratic.Quadratic.{Quadratic as Form};
ghost use Rattle.compile_cut.specs.Quadratics.{quadratic_value, IsQuadraticBounded};
ghost use Rattle.site_bounds.specs.Decisions.{IsSmallestLeast};
ghost use Rattle.sink_distances.specs.Laid.{laid_net};
ghost use Rattle.sink_distances.specs.Standing.{AreLaid};
ghost use Rattle.strip_nets.specs.Limits.{borders_limit};
ghost use Rattle.strip_nets.specs.RowForms.{form_in, row_net};
ghost use Rattle.strip_nets.specs.Sides.{IsLessBorder};
ghost use Rattle.strip_nets.specs.Strips.{IsRowForm};

use crate::material::RowForm;
use compile_cut::{Quadratic, sink_capacities, source_capacities};
use plain_cut::{BothSides, Workspace, both_sides_of, one_side_of};
use sink_distances::Laid;
use std::alloc::{AllocError, Global};
use std::mem::replace;

/// The network of a form in rows, which it takes over.
fn take_net(alloc: Global, form: &mut RowForm) -> Result<Laid, AllocError>
    requires laid { (n : ℕ) × (ends : List ℕ) × IsRowForm n ends form.old }
    ensures laid { IfOk result AreLaid }
    ensures net { IfOk result (λ laid. laid_net laid ≡ row_net form.old) }
{
    let sources = source_capacities(alloc, form.weights.as_slice())?;
    let sinks = sink_capacities(alloc, form.weights.as_slice())?;
    Ok(Laid {
        starts: replace(&mut form.laying.starts, Vec::new(alloc)),
        ends: replace(&mut form.laying.nexts, Vec::new(alloc)),
        cells: replace(&mut form.laying.cells, Vec::new(alloc)),
        firsts: replace(&mut form.laying.firsts, Vec::new(alloc)),
        sources,
        sinks,
    })
}

/// The least assignments with the fewest ones of a form in rows, a bit for each node: `lower` is
/// that of the form, and `upper` that of the form in which each weight is less by its node's
/// border. Both come of one network. At the second cut each node can send the sink its border more.
/// Refuses only where memory runs out.
pub(crate) fn row_sides(
    alloc: Global,
    form: &mut RowForm,
    borders: &Vec<u64>,
    cutting: &mut Workspace,
) -> Result<BothSides, AllocError>
    requires laid { (n : ℕ) × (ends : List ℕ) × IsRowForm n ends form.old }
    requires count { length borders.now.items ≡ vec_len form.old.weights }
    requires small { sum borders.now.items ≤ borders_limit }
    ensures lower_bits { IfOk result
        (λ sides. length sides.lower.items ≡ vec_len form.old.weights) }
    ensures upper_bits { IfOk result
        (λ sides. length sides.upper.items ≡ vec_len form.old.weights) }
    ensures lower { IfOk result (λ sides. IsSmallestLeast (vec_len form.old.weights)
        (quadratic_value (form_in form.old)) (assignment sides.lower.items)) }
    ensures upper { IfOk result (λ sides. (less : Form) →
        IsLessBorder borders.now.items (form_in form.old) less →
        IsSmallestLeast (vec_len form.old.weights) (quadratic_value less)
        (assignment sides.upper.items)) }
{
    let laid = take_net(alloc, form)?;
    let both = both_sides_of(alloc, laid, borders, cutting)?;
    Ok(both)
}

/// The least assignment with the fewest ones of a form in rows, a bit for each node: the lower of
/// those that `row_sides` answers. Refuses only where memory runs out.
pub(crate) fn row_side(
    alloc: Global,
    form: &mut RowForm,
    cutting: &mut Workspace,
) -> Result<Vec<bool>, AllocError>
    requires laid { (n : ℕ) × (ends : List ℕ) × IsRowForm n ends form.old }
    ensures bits { IfOk result (λ side. length side.items ≡ vec_len form.old.weights) }
    ensures least { IfOk result (λ side. IsSmallestLeast (vec_len form.old.weights)
        (quadratic_value (form_in form.old)) (assignment side.items)) }
{
    let laid = take_net(alloc, form)?;
    let side = one_side_of(alloc, laid, cutting)?;
    Ok(side)
}

/// Writes a form in rows as a sum of terms. A pair that saves nothing is left out.
pub(crate) fn write_form(form: &RowForm, written: &mut Quadratic) -> Result<(), AllocError>
    requires laid { (n : ℕ) × (ends : List ℕ) × IsRowForm n ends form.now }
    ensures nodes { OnOk result (vec_len written.new.weights ≡ vec_len form.now.weights) }
    ensures bounded { OnOk result (IsQuadraticBounded term_limit written.new) }
    ensures value { OnOk result ((x : ℕ → Bool) →
        quadratic_value written.new x ≡ quadratic_value (form_in form.now) x) }
{
    written.constant = 0;
    written.weights.clear();
    written.weights.extend_from_slice(form.weights.as_slice())?;
    written.arcs.clear();
    for index in 0..form.laying.firsts.len() {
        let arc = form.laying.arc(index);
        if arc.capacity > 0 {
            written.arcs.push(arc)?;
        }
    }
    Ok(())
}
