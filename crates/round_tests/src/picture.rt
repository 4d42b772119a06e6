//! The net of one expansion on a noisy picture.
ghost use Rattle.std.specs.Prelude.{◌<◌};

use crate::rows::take_ok;
use compile_cut::compile;
use flow_network::Net;
use pseudo_bool::{Energy, EnergyError};
use regular::check;
use std::alloc::Global;
use std::process::Abort;

/// How many sites each row and each column of a small picture has.
const SIDE: u32 = 16;

/// And of a large one, in whose net excess goes on within blocks before the first round.
const LARGE_SIDE: u32 = 128;

/// The label to which all sites, which have label 0, may turn.
const LABEL: i64 = 3;

/// What two neighbours of unequal labels cost.
const WEIGHT: i64 = 2;

/// The sample at a place, from 0 to 7: a slope with noise.
fn sample(x: u32, y: u32) -> u32
    ensures { result < 8 }
{
    let across = x.wrapping_mul(x).wrapping_mul(31);
    let down = y.wrapping_mul(y).wrapping_mul(17);
    let noise = across.wrapping_add(down).wrapping_add(x.wrapping_mul(y));
    (x / 4).wrapping_add(noise % 5) % 8
}

/// Adds what the site of a picture of `side` by `side` costs, and what it and its neighbours on the
/// right and below cost.
fn add_site(energy: &mut Energy, side: u32, x: u32, y: u32) -> Result<(), EnergyError> {
    let site = y.wrapping_mul(side).wrapping_add(x);
    let seen = i64::from(sample(x, y));
    energy.add_term1(site, [seen, (seen - LABEL).abs()])?;
    if x.wrapping_add(1) < side {
        energy.add_term2(site, site.wrapping_add(1), [0, WEIGHT, WEIGHT, 0])?;
    }
    if y.wrapping_add(1) < side {
        energy.add_term2(site, site.wrapping_add(side), [0, WEIGHT, WEIGHT, 0])?;
    }
    Ok(())
}

/// Adds what the sites of a row cost.
fn add_row(energy: &mut Energy, side: u32, y: u32) -> Result<(), EnergyError> {
    for x in 0..side {
        add_site(energy, side, x, y)?;
    }
    Ok(())
}

/// The energy of the move in which each site of a picture keeps label 0 or turns to label 3: data
/// costs are distances to the sample.
fn energy_of_side(alloc: Global, side: u32) -> Result<Energy, EnergyError> {
    let mut energy = Energy::new(alloc);
    energy.clear(side.wrapping_mul(side).min(LARGE_SIDE * LARGE_SIDE));
    for y in 0..side {
        add_row(&mut energy, side, y)?;
    }
    Ok(energy)
}

/// The net of such a move.
fn net_of_side(rt: &(impl Abort + AllocGlobal), side: u32) -> Net {
    let energy = take_ok(rt, energy_of_side(rt.alloc(), side));
    let regular = take_ok(rt, check(&energy));
    let compiled = take_ok(rt, compile(rt.alloc(), regular));
    compiled.net
}

/// The net of the move of a small picture.
pub fn net_of_move(rt: &(impl Abort + AllocGlobal)) -> Net {
    net_of_side(rt, SIDE)
}

/// And of a large one.
pub fn large_net_of_move(rt: &(impl Abort + AllocGlobal)) -> Net {
    net_of_side(rt, LARGE_SIDE)
}
