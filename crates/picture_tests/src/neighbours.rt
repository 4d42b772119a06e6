//! The neighbours of small images by hand, and of a large one by the number of its pairs.
use crate::rows::{expect, hold, take_ok};
use label_field::{Pair, Pairs};
use std::process::Abort;

/// Width and height, whether corners count too, and the pairs.
type List = (u32, u32, bool, &'static [(u32, u32)]);

const LISTS: &[List] = &[
    (1, 1, true, &[]),
    (1, 2, true, &[(0, 1)]),
    (2, 2, false, &[(0, 1), (0, 2), (1, 3), (2, 3)]),
    (
        2,
        2,
        true,
        &[(0, 1), (0, 2), (0, 3), (1, 3), (1, 2), (2, 3)],
    ),
    (
        3,
        2,
        false,
        &[(0, 1), (0, 3), (1, 2), (1, 4), (2, 5), (3, 4), (4, 5)],
    ),
];

/// The neighbours of an image of these sides.
fn grid(rt: &(impl Abort + AllocGlobal), width: u32, height: u32, corners: bool) -> Pairs {
    hold(rt, Pairs::fits_image(width, height));
    let pairs = if corners {
        Pairs::grid8(rt.alloc(), width, height, 5)
    } else {
        Pairs::grid4(rt.alloc(), width, height, 5)
    };
    take_ok(rt, pairs)
}

/// Whether these are the pairs of these ends in their order, all of weight 5.
fn are_pairs(pairs: &[Pair], ends: &[(u32, u32)]) -> bool {
    for (pair, (first, second)) in pairs.iter().zip(ends) {
        if pair.first != *first || pair.second != *second || pair.weight != 5 {
            return false;
        }
    }
    pairs.len() == ends.len()
}

/// Whether the neighbours of an image are its list.
fn is_listed(rt: &(impl Abort + AllocGlobal), list: &List) -> bool {
    let pairs = grid(rt, list.0, list.1, list.2);
    pairs.sites() == list.0.saturating_mul(list.1) && are_pairs(pairs.as_slice(), list.3)
}

#[test]
fn neighbours_are_listed(rt: HostRuntime) {
    for (place, list) in LISTS.iter().enumerate() {
        expect(&rt, place, is_listed(&rt, list));
    }
}

/// 2 * 1023 * 1024 pairs share an edge, and 2 * 1023 * 1023 a corner alone.
#[test]
fn large_images_have_neighbours(rt: HostRuntime) {
    hold(&rt, grid(&rt, 1_024, 1_024, false).len() == 2_095_104);
    hold(&rt, grid(&rt, 1_024, 1_024, true).len() == 4_188_162);
}
