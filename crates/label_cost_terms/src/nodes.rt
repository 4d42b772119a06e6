//! The nodes of sites.
ghost use Rattle.std.specs.Prelude.{◌≡◌, ◌==◌, ◌<◌, ℕ, true, length, OnOk};
ghost use Rattle.label_cost_terms.specs.Prelude.{labelling, Open, choice_at, IsNumbering, nodes_of};

use move_energy::Variables;
use std::alloc::AllocError;

/// The nodes of the sites that have the label, each of which is open.
pub fn list_having(
    nodes: &mut Vec<u32>,
    variables: &Variables,
    at: &[u8],
    label: u32,
) -> Result<(), AllocError>
    requires choices { length variables.now.choices.items ≡ length at.now }
    requires numbering { IsNumbering variables.now.choices.items variables.now.of_sites.items }
    requires opened { (p : ℕ) → p < length at.now → labelling at.now p ≡ label →
        choice_at variables.now.choices.items p ≡ Open }
    ensures { OnOk result (nodes.new.items ≡ nodes_of (λ p. labelling at.now p == label)
        variables.now.choices.items (length at.now)) }
{
    nodes.clear();
    for site in 0..at.len() {
        if u32::from(at[site]) == label {
            nodes.push(variables.of_sites[site])?;
        }
    }
    Ok(())
}

/// The nodes of all sites, each of which is open.
pub fn list_each(nodes: &mut Vec<u32>, variables: &Variables) -> Result<(), AllocError>
    requires numbering { IsNumbering variables.now.choices.items variables.now.of_sites.items }
    requires opened { (p : ℕ) → p < length variables.now.choices.items →
        choice_at variables.now.choices.items p ≡ Open }
    ensures { OnOk result (nodes.new.items ≡ nodes_of (λ p. true) variables.now.choices.items
        (length variables.now.choices.items)) }
{
    nodes.clear();
    for site in 0..variables.choices.len() {
        nodes.push(variables.of_sites[site])?;
    }
    Ok(())
}
