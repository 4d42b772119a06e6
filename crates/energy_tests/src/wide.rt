//! Costs over all variables of a chain, each paid by a variable of as many terms. The least values
//! were found by dynamic programming along the chain.
ghost use Rattle.std.specs.Prelude.{◌≡◌};
ghost use Rattle.cut_ways.specs.declared.solve_error.SolveError.TheVariants.{OutOfMemory};

use crate::rows::{expect, hold};
use cut_ways::{Alone, How, InOrder, Sharing, SolveError};
use flow_network::{Net, Solved};
use minimum::{Minimum, minimise};
use pseudo_bool::{Energy, EnergyError};
use regular::check;
use shared_minimum::minimise_shared;
use std::alloc::{AllocError, Global};
use std::sync::atomic::{AtomicUsize, Ordering};

const VARIABLES: u32 = 200;

/// What neighbours of the chain cost that differ, a cost, whether it is paid unless all variables
/// are 1, else if any is, the least value, and how many variables are 1 there, the fewest.
type Chain = (i64, i64, bool, i64, usize);

/// From `tools/tables/wide_ties.py`.
const CHAINS: &[Chain] = &[
    (0, 0, true, -650, 123),
    (0, 400, false, -250, 123),
    (0, 2_000, true, -216, 200),
    (1, 1, false, -572, 132),
    (1, 150, true, -423, 132),
    (1, 400, true, -216, 200),
    (1, 400, false, -173, 132),
    (3, 150, true, -287, 132),
    (3, 400, false, -37, 132),
    (3, 2_000, false, 0, 0),
    (8, 1, true, -249, 115),
    (8, 40, true, -216, 200),
    (8, 150, false, -100, 115),
    (8, 400, false, 0, 0),
];

/// As `Alone`, but a move has three parts, and it counts the nets that it is given: a move on one
/// thread asks for none.
#[derive(Drop)]
struct InParts {
    nets: AtomicUsize,
}

impl How for InParts {
    ghost ready = { λ _. Unit {0} };

    ghost refuses = { λ _ e. e ≡ OutOfMemory };

    fn solve(&self, alloc: Global, net: &Net) -> Result<Solved, SolveError> {
        self.nets.fetch_add(1, Ordering::SeqCst);
        Alone.solve(alloc, net)
    }
}

impl Sharing for InParts {
    type Fork = InOrder;

    fn parts(&self, _sites: usize) -> usize {
        3
    }

    fn is_alone(&self) -> bool {
        true
    }

    fn fork(&self) -> InOrder {
        InOrder
    }
}

/// What a variable costs at 1.
fn own_cost(variable: u32) -> i64 {
    let square = variable.wrapping_mul(variable).wrapping_mul(11);
    i64::from(square.wrapping_add(variable) % 23) - 11
}

/// Adds the terms of the chain.
fn add_chain(energy: &mut Energy, weight: i64) -> Result<(), EnergyError> {
    for variable in 0..VARIABLES {
        energy.add_term1(variable, [0, own_cost(variable)])?;
        if variable > 0 {
            energy.add_term2(variable - 1, variable, [0, weight, weight, 0])?;
        }
    }
    Ok(())
}

/// The names of all variables.
fn names(alloc: Global) -> Result<Vec<u32>, AllocError> {
    let mut names = Vec::new(alloc);
    for name in 0..VARIABLES {
        names.push(name)?;
    }
    Ok(names)
}

/// Adds the terms of a chain, and its cost over these variables.
fn fill(energy: &mut Energy, names: &[u32], chain: &Chain) -> Result<(), EnergyError> {
    energy.clear(VARIABLES);
    add_chain(energy, chain.0)?;
    if chain.2 {
        energy.add_unless_all(names, chain.1)?;
    } else {
        energy.add_if_any(names, chain.1)?;
    }
    Ok(())
}

/// How many variables of the chain are 1.
fn count_ones(assignment: &[bool]) -> usize {
    let mut ones: usize = 0;
    for variable in 0..VARIABLES as usize {
        if assignment.get(variable) == Some(&true) {
            ones = ones.saturating_add(1);
        }
    }
    ones
}

/// Whether the minimum of a chain is what was found.
fn is_least(alloc: Global, energy: &mut Energy, names: &[u32], chain: &Chain) -> bool {
    let Ok(()) = fill(energy, names, chain) else {
        return false;
    };
    let Ok(regular) = check(energy) else {
        return false;
    };
    match minimise(alloc, regular) {
        Ok(minimum) => is_of_chain(&minimum, chain),
        Err(_) => false,
    }
}

/// Whether this is the minimum of a chain.
fn is_of_chain(minimum: &Minimum, chain: &Chain) -> bool {
    minimum.value == chain.3 && count_ones(minimum.assignment.as_slice()) == chain.4
}

/// Whether a move in parts finds the minimum of a chain, and asks for so many nets.
fn is_least_in_parts(
    alloc: Global,
    energy: &mut Energy,
    names: &[u32],
    chain: &Chain,
    nets: usize,
) -> bool {
    let how = InParts {
        nets: AtomicUsize::new(0),
    };
    let Ok(()) = fill(energy, names, chain) else {
        return false;
    };
    let Ok(regular) = check(energy) else {
        return false;
    };
    match minimise_shared(alloc, regular, &how) {
        Ok(minimum) => is_of_chain(&minimum, chain) && how.nets.load(Ordering::SeqCst) == nets,
        Err(_) => false,
    }
}

#[test]
fn costs_over_many_variables_are_paid(rt: HostRuntime) {
    let alloc = rt.alloc();
    let mut energy = Energy::new(alloc);
    let names = names(alloc);
    hold(&rt, names.is_ok());
    let names = names.unwrap_or(Vec::new(alloc));
    for (place, chain) in CHAINS.iter().enumerate() {
        let right = is_least(alloc, &mut energy, names.as_slice(), chain);
        expect(&rt, place, right);
    }
}

#[test]
fn moves_in_parts_find_the_same(rt: HostRuntime) {
    let alloc = rt.alloc();
    let mut energy = Energy::new(alloc);
    let names = names(alloc);
    hold(&rt, names.is_ok());
    let names = names.unwrap_or(Vec::new(alloc));
    for (place, chain) in CHAINS.iter().enumerate() {
        let right = is_least_in_parts(alloc, &mut energy, names.as_slice(), chain, 0);
        expect(&rt, place, right);
    }
}

/// Neighbours that differ cost more than labels may cost a pair, so a net is asked for.
#[test]
fn large_numbers_make_a_net(rt: HostRuntime) {
    let alloc = rt.alloc();
    let mut energy = Energy::new(alloc);
    let names = names(alloc);
    hold(&rt, names.is_ok());
    let names = names.unwrap_or(Vec::new(alloc));
    let chain = (6_000_000, 0, true, -216, 200);
    let right = is_least_in_parts(alloc, &mut energy, names.as_slice(), &chain, 1);
    expect(&rt, 0, right);
}
