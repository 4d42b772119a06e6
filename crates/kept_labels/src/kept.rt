//! Whether an expansion keeps the labels that cost something by themselves.
ghost use Rattle.std.specs.Prelude.{◌≡◌, ◌≢◌, ◌<◌, ◌≤◌, ◌↔◌, ℕ, All, true, length, pos, ◌≤ℤ◌};
ghost use Rattle.std.specs.Prelude.{◌<ℤ◌, false, slice_index_or, IsTrue};
ghost use Rattle.cost_store.specs.Limits.{label_cost_limit};
ghost use Rattle.cost_store.specs.Promises.{IsCost};
ghost use Rattle.label_cost_terms.specs.LabelCosts.{AreCostsOf};
ghost use Rattle.label_energies.specs.Energies.{Instance, labelling};
ghost use Rattle.label_energies.specs.declared.change.Move.TheVariants.{Expand};
ghost use Rattle.label_field.specs.Limits.{label_limit};
ghost use Rattle.site_forms.specs.Numbers.{IsFormOf};
ghost use Rattle.kept_labels.specs.Kept.{AreLabelsKept, own_price};

use crate::rises::last_rises;
use cost_store::mark_used;
use site_forms::SiteForm;

/// Whether a label is kept where it has to be: where it is another than that of the expansion, some
/// site has it, and it costs something by itself.
fn is_kept(marks: &[bool], costs: &[i64], rises: &[i64], alpha: u32, label: usize) -> bool
    requires label { (label < length marks.now) × (label < length costs.now)
        × (label < length rises.now) }
    ensures { IsTrue result ↔ (label ≢ alpha → slice_index_or marks.now label false ≡ true →
        pos 0 <ℤ slice_index_or costs.now label (pos 0) →
        slice_index_or costs.now label (pos 0) ≤ℤ slice_index_or rises.now label (pos 0)) }
{
    label == alpha as usize || !marks[label] || costs[label] <= 0 || costs[label] <= rises[label]
}

/// Whether an expansion of a label keeps each other label in use that costs something by itself.
/// The form is that of the expansion.
pub fn are_kept(form: &SiteForm, alpha: u32, costs: &[i64]) -> bool
    requires few { length costs.now ≤ label_limit }
    requires costs { All (IsCost (pos label_cost_limit)) costs.now }
    ensures { (m : Instance) → IsFormOf m (Expand alpha) form.now → AreCostsOf m costs.now →
        IsTrue result ↔ AreLabelsKept m alpha (labelling form.now.at.now) }
{
    let marks = mark_used(form.at);
    let rises = last_rises(form);
    for label in 0..costs.len() {
        if !is_kept(&marks, costs, &rises, alpha, label) {
            return false;
        }
    }
    true
}

/// What an expansion pays for its own label: what that costs by itself, and nothing where some site
/// has it already. Each label has a cost, that of the expansion too.
pub fn own_price_of(at: &[u8], alpha: u32, costs: &[i64]) -> u32
    requires few { (alpha < length costs.now) × (length costs.now ≤ label_limit) }
    requires costs { All (IsCost (pos label_cost_limit)) costs.now }
    ensures { (m : Instance) → length at.now ≡ m.sites → AreCostsOf m costs.now →
        result ≡ own_price m alpha (labelling at.now) }
{
    let marks = mark_used(at);
    if marks[alpha as usize] {
        return 0;
    }
    costs[alpha as usize] as u32
}
