//! How near an energy is to the least, as its bound tells.
ghost use Rattle.std.specs.Prelude.{◌≡◌, ◌≤◌, IfSome};
ghost use Rattle.run_options.specs.Limits.{greatest_smooth_cost};
ghost use Rattle.program_tasks.specs.Bounds.{near_of_bound};

use moves::Bound;
use program_texts::Near;

/// The numbers of a bound, where there is one.
pub fn near_of_bound(bound: Option<Bound>) -> Option<Near>
    requires { IfSome bound (λ bound. bound.vmax ≤ greatest_smooth_cost) }
    ensures { result ≡ near_of_bound bound }
{
    match bound {
        None => None,
        Some(bound) => Some(Near {
            first: bound.vmin,
            second: 2 * bound.vmax,
        }),
    }
}
