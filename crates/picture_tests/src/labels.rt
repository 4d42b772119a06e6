//! Labellings, and pairs that are added, refused and given other weights.
use crate::rows::{expect, hold, take_ok};
use label_field::{LabelFieldError, Labelling, Pair, Pairs};
use std::process::Abort;

/// What a call said, as one word.
fn word(answer: Result<(), LabelFieldError>) -> &'static str {
    match answer {
        Ok(()) => "done",
        Err(LabelFieldError::NoSuchSite) => "no such site",
        Err(LabelFieldError::NoSuchLabel) => "no such label",
        Err(LabelFieldError::SamePair) => "same pair",
        Err(LabelFieldError::TooManyPairs) => "too many pairs",
        Err(LabelFieldError::WeightRange) => "weight range",
        Err(LabelFieldError::OutOfMemory(_)) => "out of memory",
    }
}

/// A site, a label, and what `set_label` says of them, of 3 sites and 256 labels; and the labels
/// then.
type SetLabel = (u32, u32, &'static str, [u8; 3]);

const LABELS: &[SetLabel] = &[
    (1, 255, "done", [0, 255, 0]),
    (3, 256, "no such site", [0, 255, 0]),
    (3, 0, "no such site", [0, 255, 0]),
    (0, 256, "no such label", [0, 255, 0]),
    (2, 7, "done", [0, 255, 7]),
    (1, 0, "done", [0, 0, 7]),
    (0, 1, "done", [1, 0, 7]),
];

/// Two sites, a weight, and what `add` says of them, of 3 sites.
const PAIRS: &[(u32, u32, i64, &str)] = &[
    (0, 5, 1, "no such site"),
    (5, 0, 1, "no such site"),
    (5, 5, 1, "no such site"),
    (3, 0, -1, "no such site"),
    (1, 1, 1, "same pair"),
    (1, 1, -1, "same pair"),
    (0, 1, 1001, "weight range"),
    (0, 1, -1, "weight range"),
    (0, 1, 4_294_967_296, "weight range"),
    (1, 0, 1000, "done"),
    (0, 2, 0, "done"),
    (1, 0, 1000, "done"),
];

/// The pairs that were added, the last with its other weight.
const KEPT: &[Pair] = &[
    Pair {
        first: 1,
        second: 0,
        weight: 1000,
    },
    Pair {
        first: 0,
        second: 2,
        weight: 0,
    },
    Pair {
        first: 1,
        second: 0,
        weight: 7,
    },
];

/// Adds a pair. Where a growth is refused, nothing is changed, and the pair is added once more.
fn add(rt: &impl Abort, pairs: &mut Pairs, first: u32, second: u32, weight: i64) -> &'static str {
    let before = pairs.len();
    hold(rt, !pairs.are_numbered());
    let said = word(pairs.add(first, second, weight));
    if said != "out of memory" {
        return said;
    }
    hold(rt, pairs.len() == before && !pairs.are_numbered());
    word(pairs.add(first, second, weight))
}

/// Whether a label is set or refused, and the labels are then what the row tells.
fn is_set(labelling: &mut Labelling, row: &SetLabel) -> bool {
    word(labelling.set_label(row.0, row.1)) == row.2 && labelling.as_slice() == row.3.as_slice()
}

/// Whether this is a new labelling of 3 sites and 256 labels.
fn is_new(labelling: &Labelling) -> bool {
    labelling.sites() == 3
        && labelling.labels() == 256
        && labelling.as_slice() == [0u8, 0, 0].as_slice()
}

#[test]
fn labels_are_kept(rt: HostRuntime) {
    let mut labelling = take_ok(&rt, Labelling::new(rt.alloc(), 3, 256));
    hold(&rt, is_new(&labelling));
    for (place, row) in LABELS.iter().enumerate() {
        expect(&rt, place, is_set(&mut labelling, row));
    }
    hold(&rt, matches!(labelling.label(2), Ok(7)));
    hold(
        &rt,
        matches!(labelling.label(3), Err(LabelFieldError::NoSuchSite)),
    );
}

/// The pairs are added or refused.
fn expect_pairs(rt: &impl Abort, pairs: &mut Pairs) {
    for (place, row) in PAIRS.iter().enumerate() {
        expect(rt, place, add(rt, pairs, row.0, row.1, row.2) == row.3);
    }
}

/// Whether the pairs are those that were added, the last with its other weight.
fn are_kept(pairs: &Pairs) -> bool {
    pairs.sites() == 3 && !pairs.is_empty() && pairs.as_slice() == KEPT && pairs.get(1) == KEPT[1]
}

#[test]
fn pairs_are_kept(rt: HostRuntime) {
    let mut pairs = Pairs::new(rt.alloc(), 3);
    hold(&rt, pairs.is_empty());
    expect_pairs(&rt, &mut pairs);
    hold(&rt, pairs.len() == 3 && !pairs.are_numbered());
    pairs.set_weight(2, 7);
    hold(&rt, are_kept(&pairs));
}
