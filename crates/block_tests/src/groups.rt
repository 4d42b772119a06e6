//! Places grouped by the number that stands there.
use crate::rows::{expect, hold, take_ok};
use counting_sort::group;
use std::process::Abort;

/// How many numbers, a list, and of its groups the starts and the places.
type Case = (usize, &'static [u32], &'static [u32], &'static [u32]);

const CASES: &[Case] = &[
    (2, &[], &[0, 0, 0], &[]),
    (
        5,
        &[3, 1, 3, 0, 1, 3],
        &[0, 1, 3, 3, 6, 6],
        &[3, 1, 4, 0, 2, 5],
    ),
    // The places are those of the numbers, and not the numbers of the places.
    (3, &[1, 2, 0], &[0, 1, 2, 3], &[2, 0, 1]),
];

/// Whether the groups of a list are those of its row.
fn is_grouped(rt: &(impl Abort + AllocGlobal), case: &Case) -> bool {
    let (numbers, list, starts, places) = case;
    hold(rt, *numbers <= 5);
    hold(rt, list.iter().all(|number| (*number as usize) < *numbers));
    let groups = take_ok(rt, group(rt.alloc(), *numbers, list));
    groups.starts.as_slice() == *starts && groups.places.as_slice() == *places
}

#[test]
fn groups_places(rt: HostRuntime) {
    for (place, case) in CASES.iter().enumerate() {
        expect(&rt, place, is_grouped(&rt, case));
    }
}
