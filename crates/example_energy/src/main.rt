//! A program that uses the library as any other may: it builds an energy, and prints its minimum.
#![tactic(auto)]

ghost use Rattle.std.specs.Prelude.{◌≡◌, ◌↔◌, ℕ, Bool, ◌≤ℤ◌, IfOk, IfSome, IsNone};
ghost use Rattle.graph_cuts.specs.Energies.{value_at};
ghost use Rattle.graph_cuts.specs.Regularity.{IsRegular};

use graph_cuts::{Energy, EnergyError, check, minimise};
use std::alloc::{AllocError, Global};

/// The energy of two variables whose values at 00, 01, 10 and 11 are 6, 14, 7 and 8.
fn example(alloc: Global) -> Result<Energy, EnergyError> {
    let mut energy = Energy::new(alloc);
    let x = energy.add_variable()?;
    let y = energy.add_variable()?;
    energy.add_term1(x, [5, 2])?; // 5 where x is 0, and 2 where it is 1
    energy.add_term1(y, [1, 6])?;
    energy.add_term2(x, y, [0, 3, 4, 0])?; // at 00, 01, 10 and 11
    Ok(energy)
}

/// The least value over all assignments, or `None` exactly where some term is not regular.
fn least_value(alloc: Global, energy: &Energy) -> Result<Option<i64>, AllocError>
    ensures none { IfOk result (λ found. IsNone found ↔ (¬ IsRegular energy.now)) }
    ensures least { IfOk result (λ found. IfSome found (λ least.
        (x : ℕ → Bool) → least ≤ℤ value_at energy.now x)) }
    ensures reached { IfOk result (λ found. IfSome found (λ least.
        (x : ℕ → Bool) × (value_at energy.now x ≡ least))) }
{
    let Ok(regular) = check(energy) else {
        return Ok(None);
    };
    let minimum = minimise(alloc, regular)?;
    Ok(Some(minimum.value))
}

fn main(rt: HostRuntime) -> anyhow::Result<()> {
    let energy = example(rt.alloc())?;
    let regular = check(&energy)?; // the first term that is not regular, if there is one
    let minimum = minimise(rt.alloc(), regular)?;
    println!(rt; "minimum {}", minimum.value)?;
    for (variable, bit) in minimum.assignment.iter().enumerate() {
        println!(rt; "x{variable} is {}", u8::from(*bit))?;
    }
    if let Some(least) = least_value(rt.alloc(), &energy)? {
        println!(rt; "no assignment is below {least}")?;
    }
    Ok(())
}
