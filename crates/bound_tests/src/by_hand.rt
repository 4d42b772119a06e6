//! Bounds that meet the least energy, which was found by trying every labelling.
ghost use Rattle.std.specs.Prelude.{◌<◌, ◌≤ℤ◌, pos};

use cost_store::{DataCost, Problem, SmoothCost};
use dual_bound::lower_bound;
use label_field::Pairs;
use std::test::Fail;

/// A picture of three columns and two rows.
const SAMPLES: [u8; 6] = [1, 0, 2, 0, 0, 2];

/// What three labels cost each of three sites, and what they cost a pair: from the first site's
/// label to the second's it is another price than back.
const COSTS: [u8; 9] = [0, 5, 9, 7, 0, 7, 9, 4, 0];

const PRICES: [u8; 9] = [0, 3, 8, 1, 0, 2, 6, 5, 0];

/// What the labels cost each of two pairs, that of sites 0 and 1 and that of sites 2 and 1: of each
/// pair a row for each label of its first site.
const OWN: [u8; 18] = [9, 6, 1, 4, 2, 8, 3, 5, 0, 0, 3, 8, 1, 0, 2, 6, 5, 9];

#[test]
fn a_picture(rt: HostRuntime) -> Result<(), Fail> {
    let pairs = Pairs::grid4(rt.alloc(), 3, 2, 1)?;
    let data_cost = DataCost::new(
        |site: u32, label: u32| -> i64
            requires { (site < 6) × (label < 3) }
            ensures { (pos 0 ≤ℤ result) × (result ≤ℤ pos 255) }
        { i64::from(SAMPLES[site as usize].abs_diff(label as u8)) },
        6,
        3,
    );
    let smooth_cost = SmoothCost::new(
        |first: u32, second: u32| -> i64
            ensures { (pos 0 ≤ℤ result) × (result ≤ℤ pos 1) }
        { i64::from(first != second) },
        3,
    );
    let problem = Problem::new(pairs, data_cost, smooth_cost);
    let found = lower_bound(rt.alloc(), &problem, 20, u64::MAX)?;
    assert_eq!(rt; found.low, 3);
    assert_eq!(rt; problem.energy(&found.labelling), 3);
    Ok(())
}

#[test]
fn a_chain_whose_pairs_are_written_backwards(rt: HostRuntime) -> Result<(), Fail> {
    let mut pairs = Pairs::new(rt.alloc(), 3);
    pairs.add(1, 0, 2)?;
    pairs.add(2, 1, 3)?;
    assert_eq!(rt; pairs.sites(), 3);
    let data_cost = DataCost::new(
        |site: u32, label: u32| -> i64
            requires { (site < 3) × (label < 3) }
            ensures { (pos 0 ≤ℤ result) × (result ≤ℤ pos 255) }
        { i64::from(COSTS[site as usize * 3 + label as usize]) },
        3,
        3,
    );
    let smooth_cost = SmoothCost::new(
        |first: u32, second: u32| -> i64
            requires { (first < 3) × (second < 3) }
            ensures { (pos 0 ≤ℤ result) × (result ≤ℤ pos 255) }
        { i64::from(PRICES[first as usize * 3 + second as usize]) },
        3,
    );
    let problem = Problem::new(pairs, data_cost, smooth_cost);
    let found = lower_bound(rt.alloc(), &problem, 20, u64::MAX)?;
    assert_eq!(rt; found.low, 6);
    assert_eq!(rt; problem.energy(&found.labelling), 6);
    Ok(())
}

/// By hand: with label 0, 1 or 2 at site 1 the cheapest labels of the others make 21, 10 or 14. The
/// sites alone cost 0.
#[test]
fn a_chain_whose_pairs_have_costs_of_their_own(rt: HostRuntime) -> Result<(), Fail> {
    let mut pairs = Pairs::new(rt.alloc(), 3);
    pairs.add(0, 1, 1)?;
    pairs.add(2, 1, 1)?;
    assert_eq!(rt; pairs.sites(), 3);
    assert_eq!(rt; pairs.len(), 2);
    let data_cost = DataCost::new(
        |site: u32, label: u32| -> i64
            requires { (site < 3) × (label < 3) }
            ensures { (pos 0 ≤ℤ result) × (result ≤ℤ pos 255) }
        { i64::from(COSTS[site as usize * 3 + label as usize]) },
        3,
        3,
    );
    let pair_costs = SmoothCost::by_pair(
        |line: u32, second: u32| -> i64
            requires { (line < 6) × (second < 3) }
            ensures { (pos 0 ≤ℤ result) × (result ≤ℤ pos 255) }
        { i64::from(OWN[line as usize * 3 + second as usize]) },
        3,
        2,
    );
    let problem = Problem::by_pair(pairs, data_cost, pair_costs);
    let found = lower_bound(rt.alloc(), &problem, 20, u64::MAX)?;
    assert_eq!(rt; found.low, 10);
    assert_eq!(rt; problem.energy(&found.labelling), 10);
    Ok(())
}
