//! What the open sites of a strip weigh, read of the move's form.
ghost use Rattle.std.specs.Prelude.{◌≡◌, ◌≤◌, map, length};
ghost use Rattle.std.specs.Prelude.{OnOk};
ghost use Rattle.label_energies.specs.Energies.{IsInstance};
ghost use Rattle.compile_cut.specs.Weights.{weights_size};
ghost use Rattle.move_energy.specs.Choices.{choice_at, AreOpenSites};
ghost use Rattle.move_energy.specs.Limits.{weights_limit};
ghost use Rattle.site_bounds.specs.Parts.{site_weight};
ghost use Rattle.site_forms.specs.Numbers.{IsOverPairs, WhereRead};
ghost use Rattle.strip_nets.specs.Views.{strip_view};

use move_energy::Choice;
use site_bounds::{SiteForm, read_weight};
use std::alloc::AllocError;

/// Lists what each open site of a range weighs by what is known.
pub fn read_weights(
    weights: &mut Vec<i64>,
    form: &SiteForm,
    known: &[Choice],
    from: u32,
    to: u32,
    opened: &[u32],
) -> Result<(), AllocError>
    requires over { IsOverPairs form.now }
    requires count { length known.now ≡ length form.now.at.now }
    requires opened { AreOpenSites (strip_view known.now from to) opened.now }
    ensures weights { WhereRead form.now (λ m move f. IsInstance m → OnOk result
        (weights.new.items ≡ map (site_weight m move f (choice_at known.now)) opened.now)) }
    ensures count { OnOk result (length weights.new.items ≡ length opened.now) }
    ensures size { OnOk result (weights_size weights.new.items ≤ weights_limit) }
{
    weights.clear();
    weights.reserve(opened.len())?;
    for index in 0..opened.len() {
        weights.push_reserved(read_weight(form, known, opened[index]));
    }
    Ok(())
}
