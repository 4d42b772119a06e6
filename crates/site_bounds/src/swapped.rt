//! The sites of a swap, opened.
ghost use Rattle.std.specs.Prelude.{◌<◌, All, length};
ghost use Rattle.site_bounds.specs.Swapped.{OpensSites};

use move_energy::Choice;

/// Opens these sites.
pub(crate) fn mark_open(choices: &mut Vec<Choice>, sites: &[u32])
    requires { All (λ p. p < length choices.old.items) sites.now }
    ensures { OpensSites sites.now choices.old.items choices.new.items }
{
    for place in 0..sites.len() {
        choices[sites[place] as usize] = Choice::Open;
    }
}
