//! Each call of C once, with a worked example.
use crate::{
    GcoBound, GcoMinimum, GcoOne, GcoOutcome, GcoPair, GcoThree, GcoTwo, gco_expand,
    gco_expand_pairs, gco_label, gco_label_int32, gco_label_pairs, gco_lower_bound,
    gco_lower_bound_pairs, gco_minimise, gco_swap,
};
use std::test::Fail;

const DATA: [i64; 15] = [4, 6, 9, 7, 5, 6, 8, 4, 7, 9, 7, 3, 6, 8, 5];

const POTTS: [i64; 9] = [0, 1, 1, 1, 0, 1, 1, 1, 0];

const PAIRS: [GcoPair; 6] = [
    GcoPair {
        first: 0,
        second: 1,
        weight: 3,
    },
    GcoPair {
        first: 1,
        second: 2,
        weight: 2,
    },
    GcoPair {
        first: 2,
        second: 3,
        weight: 2,
    },
    GcoPair {
        first: 3,
        second: 4,
        weight: 4,
    },
    GcoPair {
        first: 1,
        second: 3,
        weight: 1,
    },
    GcoPair {
        first: 0,
        second: 4,
        weight: 1,
    },
];

/// Nothing told yet.
fn no_outcome() -> GcoOutcome {
    GcoOutcome {
        data: -1,
        smooth: -1,
        label: -1,
        place: 9,
        vmin: 9,
        vmax: 9,
        cycles: 9,
        settled: 9,
        changed: 9,
        alpha: 9,
        beta: 9,
    }
}

/// Whether this and no more is told: the parts of the energy; place and bound; cycles, settled,
/// changed and the labels of a move.
fn tells(told: &GcoOutcome, parts: [i64; 3], place: [u64; 3], rest: [u32; 5]) -> bool {
    [told.data, told.smooth, told.label] == parts
        && [told.place, told.vmin, told.vmax] == place
        && [
            told.cycles,
            told.settled,
            told.changed,
            told.alpha,
            told.beta,
        ] == rest
}

/// A call over three labels: the tables of costs and the pairs; of up to five sites how many there
/// are and where they start; its status, the labels that it leaves, and what it tells, as `tells`
/// takes it.
struct Case {
    data: &'static [i64],
    smooth: &'static [i64],
    pairs: &'static [GcoPair],
    sites: usize,
    start: [u32; 5],
    status: u32,
    labels: [u32; 5],
    parts: [i64; 3],
    place: [u64; 3],
    rest: [u32; 5],
}

/// What two sites cost at each of three labels, and the square of how far these are apart.
const TWO_SITES: [i64; 6] = [0, 9, 9, 9, 9, 0];

const SQUARES: [i64; 9] = [0, 1, 4, 1, 0, 1, 4, 1, 0];

const BESIDE: GcoPair = GcoPair {
    first: 0,
    second: 1,
    weight: 1,
};

const ALONE: GcoPair = GcoPair {
    first: 0,
    second: 0,
    weight: 1,
};

/// Runs of expansions. The five districts, whose least energy is 27, which expansions reach from 0
/// everywhere; no sites, where the first cycle changes nothing; and a second pair of one site
/// alone, which is refused by its place.
const RUNS: [Case; 3] = [
    Case {
        data: &DATA,
        smooth: &POTTS,
        pairs: &PAIRS,
        sites: 5,
        start: [0; 5],
        status: 0,
        labels: [1, 1, 1, 2, 2],
        parts: [23, 4, 0],
        place: [0, 1, 1],
        rest: [2, 1, 0, 0, 0],
    },
    Case {
        data: &[],
        smooth: &POTTS,
        pairs: &[],
        sites: 0,
        start: [0; 5],
        status: 0,
        labels: [0; 5],
        parts: [0; 3],
        place: [0, 1, 1],
        rest: [1, 1, 0, 0, 0],
    },
    Case {
        data: &TWO_SITES,
        smooth: &SQUARES,
        pairs: &[BESIDE, ALONE],
        sites: 2,
        start: [0, 2, 0, 0, 0],
        status: 12,
        labels: [0, 2, 0, 0, 0],
        parts: [0; 3],
        place: [1, 0, 0],
        rest: [0; 5],
    },
];

#[test]
fn runs(rt: HostRuntime) -> Result<(), Fail> {
    for (place, case) in RUNS.iter().enumerate() {
        let mut labels = case.start;
        let mut told = no_outcome();
        let status = gco_label(
            rt.alloc(),
            3,
            case.data,
            case.smooth,
            &[],
            case.pairs,
            0,
            9,
            &mut labels[..case.sites.min(5)],
            &mut told,
        );
        assert!(rt; status == case.status, "case {place}: status {status}");
        assert!(rt; labels == case.labels, "case {place}: other labels");
        assert!(rt;
            tells(&told, case.parts, case.place, case.rest),
            "case {place}: told otherwise"
        );
    }
    Ok(())
}

/// The five districts by costs of 32 bits, each label costing 2 by itself.
#[test]
fn districts_int32(rt: HostRuntime) -> Result<(), Fail> {
    let mut labels = [0u32; 5];
    let mut told = no_outcome();
    let status = gco_label_int32(
        rt.alloc(),
        3,
        &[4i32, 6, 9, 7, 5, 6, 8, 4, 7, 9, 7, 3, 6, 8, 5],
        &[0i32, 1, 1, 1, 0, 1, 1, 1, 0],
        &[2i32, 2, 2],
        &PAIRS,
        0,
        9,
        &mut labels,
        &mut told,
    );
    assert!(rt; status == 0 && labels == [1, 1, 1, 2, 2]);
    assert!(rt; tells(&told, [23, 4, 4], [0, 0, 0], [2, 1, 0, 0, 0]));
    Ok(())
}

/// Expansions of one label: of 2 in the districts from 0 everywhere, to an energy of 25 + 4; of 2
/// over no sites; and of 1 over two sites at 0 and 2 whose difference costs its square, with a term
/// that is not regular, which names that move.
const EXPANSIONS: [(u32, Case); 3] = [
    (
        2,
        Case {
            data: &DATA,
            smooth: &POTTS,
            pairs: &PAIRS,
            sites: 5,
            start: [0; 5],
            status: 0,
            labels: [0, 2, 2, 2, 2],
            parts: [25, 4, 0],
            place: [0; 3],
            rest: [0, 0, 1, 0, 0],
        },
    ),
    (
        2,
        Case {
            data: &[],
            smooth: &POTTS,
            pairs: &[],
            sites: 0,
            start: [0; 5],
            status: 0,
            labels: [0; 5],
            parts: [0; 3],
            place: [0; 3],
            rest: [0; 5],
        },
    ),
    (
        1,
        Case {
            data: &TWO_SITES,
            smooth: &SQUARES,
            pairs: &[BESIDE, BESIDE],
            sites: 2,
            start: [0, 2, 0, 0, 0],
            status: 24,
            labels: [0, 2, 0, 0, 0],
            parts: [0; 3],
            place: [0; 3],
            rest: [0, 0, 0, 1, 1],
        },
    ),
];

#[test]
fn expansions(rt: HostRuntime) -> Result<(), Fail> {
    for (place, row) in EXPANSIONS.iter().enumerate() {
        let case = &row.1;
        let mut labels = case.start;
        let mut told = no_outcome();
        let status = gco_expand(
            rt.alloc(),
            3,
            case.data,
            case.smooth,
            &[],
            case.pairs,
            row.0,
            &mut labels[..case.sites.min(5)],
            &mut told,
        );
        assert!(rt; status == case.status, "case {place}: status {status}");
        assert!(rt; labels == case.labels, "case {place}: other labels");
        assert!(rt;
            tells(&told, case.parts, case.place, case.rest),
            "case {place}: told otherwise"
        );
    }
    Ok(())
}

/// A swap of 2 and 1 in the districts after the first of these expansions: to an energy of 21 + 7.
#[test]
fn one_swap(rt: HostRuntime) -> Result<(), Fail> {
    let mut labels = [0u32, 2, 2, 2, 2];
    let mut told = no_outcome();
    let status = gco_swap(
        rt.alloc(),
        3,
        &DATA,
        &POTTS,
        &[],
        &PAIRS,
        2,
        1,
        &mut labels,
        &mut told,
    );
    assert!(rt; status == 0 && labels == [0, 1, 1, 2, 2]);
    assert!(rt; tells(&told, [21, 7, 0], [0, 0, 0], [0, 0, 1, 0, 0]));
    Ok(())
}

/// The three variables of a term that costs 3 unless all are 1, beside terms that cost 2 where the
/// first is 1, and 4 where the last two differ: all 1 costs 2 and the constant 10.
#[test]
fn three_variables(rt: HostRuntime) -> Result<(), Fail> {
    let ones = [GcoOne {
        variable: 0,
        spare: 0,
        at0: 0,
        at1: 2,
    }];
    let twos = [GcoTwo {
        first: 1,
        second: 2,
        at00: 0,
        at01: 4,
        at10: 4,
        at11: 0,
    }];
    let threes = [GcoThree {
        first: 0,
        second: 1,
        third: 2,
        spare: 0,
        at000: 3,
        at001: 3,
        at010: 3,
        at011: 3,
        at100: 3,
        at101: 3,
        at110: 3,
        at111: 0,
    }];
    let mut assignment = [7u8; 3];
    let mut told = GcoMinimum {
        value: 9,
        place: 9,
        fixed: 9,
        fixed_at: 9,
    };
    let status = gco_minimise(
        rt.alloc(),
        10,
        &ones,
        &twos,
        &threes,
        &mut assignment,
        &mut told,
    );
    assert!(rt; status == 0 && assignment == [1, 1, 1]);
    assert!(rt; told.value == 12 && told.place == 0 && told.fixed == 3 && told.fixed_at == 0);
    Ok(())
}

/// Three sites in a row, whose pairs stand backwards, with costs of two labels that are not the
/// same both ways: the labels 0 1 1 cost 6, and all others more. It takes 96 bytes.
#[test]
fn bound_of_a_chain(rt: HostRuntime) -> Result<(), Fail> {
    let pairs = [
        GcoPair {
            first: 1,
            second: 0,
            weight: 2,
        },
        GcoPair {
            first: 2,
            second: 1,
            weight: 3,
        },
    ];
    let data = [0i64, 5, 9, 7, 0, 7, 9, 4, 0];
    let prices = [0i64, 3, 8, 1, 0, 2, 6, 5, 0];
    let mut labels = [0u32; 3];
    let mut told = GcoBound { low: 9, place: 9 };
    let mut status = [9u32; 2];
    for (place, allowed) in [95u64, 96].iter().enumerate() {
        status[place] = gco_lower_bound(
            rt.alloc(),
            3,
            &data,
            &prices,
            &[],
            &pairs,
            20,
            *allowed,
            &mut labels,
            &mut told,
        );
    }
    assert!(rt; status == [9, 0] && labels == [0, 1, 1]);
    assert!(rt; told.low == 6 && told.place == 0);
    Ok(())
}

/// Three sites in a row, whose two pairs have costs of their own: the first costs 2, 4, 6 and 0 at
/// the labels 00, 01, 10 and 11, the second 0, 2, 4 and 4.
const OWN_TABLES: [i64; 8] = [1, 2, 3, 0, 0, 1, 2, 2];

const ROW: [GcoPair; 2] = [
    GcoPair {
        first: 0,
        second: 1,
        weight: 2,
    },
    GcoPair {
        first: 1,
        second: 2,
        weight: 2,
    },
];

/// Of the eight labellings of that row 1 1 1 costs the least: 3 at the sites, 0 and 4 at the pairs.
/// From 0 everywhere an expansion of 1 reaches it.
const ROW_DATA: [i64; 6] = [0, 2, 3, 0, 7, 1];

#[test]
fn pairs_of_their_own(rt: HostRuntime) -> Result<(), Fail> {
    let mut labels = [0u32; 3];
    let mut told = no_outcome();
    let mut status = [9u32; 4];
    let numbers: [&[u32]; 3] = [&[], &[0, 2], &[0]];
    for (place, table_of) in numbers.iter().enumerate() {
        labels = [0; 3];
        status[place] = gco_label_pairs(
            rt.alloc(),
            2,
            &ROW_DATA,
            2,
            &OWN_TABLES,
            &[],
            &ROW,
            table_of,
            0,
            9,
            &mut labels,
            &mut told,
        );
        if place == 0 {
            assert!(rt; labels == [1, 1, 1]);
            assert!(rt; tells(&told, [3, 4, 0], [0; 3], [2, 1, 0, 0, 0]));
        }
    }
    assert!(rt; labels == [0; 3] && told.place == 0);
    status[3] = gco_expand_pairs(
        rt.alloc(),
        2,
        &ROW_DATA,
        2,
        &OWN_TABLES,
        &[],
        &ROW,
        &[],
        1,
        &mut labels,
        &mut told,
    );
    assert!(rt; status == [0, 31, 30, 0] && labels == [1, 1, 1]);
    assert!(rt; tells(&told, [3, 4, 0], [0; 3], [0, 0, 1, 0, 0]));
    Ok(())
}

/// That row again: no labelling costs less than 7, and 1 1 1 costs it. It takes 64 bytes.
#[test]
fn bound_of_pairs_of_their_own(rt: HostRuntime) -> Result<(), Fail> {
    let mut labels = [0u32; 3];
    let mut told = GcoBound { low: 9, place: 9 };
    let mut status = [9u32; 2];
    for (place, allowed) in [63u64, 64].iter().enumerate() {
        status[place] = gco_lower_bound_pairs(
            rt.alloc(),
            2,
            &ROW_DATA,
            2,
            &OWN_TABLES,
            &[],
            &ROW,
            &[],
            20,
            *allowed,
            &mut labels,
            &mut told,
        );
    }
    assert!(rt; status == [9, 0] && labels == [1, 1, 1]);
    assert!(rt; told.low == 7 && told.place == 0);
    Ok(())
}
