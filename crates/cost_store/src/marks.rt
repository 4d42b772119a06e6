//! Which labels some site has.
ghost use Rattle.std.specs.Prelude.{length};
ghost use Rattle.label_energies.specs.Energies.{labelling};
ghost use Rattle.cost_store.specs.LabelCosts.{AreLabelMarks};

/// Of each label that there can be whether some site has it, in one pass over the sites.
pub fn mark_used(at: &[u8]) -> [bool; 256]
    ensures { AreLabelMarks (length at.now) (labelling at.now) result }
{
    let mut marks = [false; 256];
    for site in 0..at.len() {
        marks[at[site] as usize] = true;
    }
    marks
}
