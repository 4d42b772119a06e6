//! Each call of C once, with an example by hand, and refused calls.
use crate::{
    GcoPictureTold, GcoRestore, GcoSegment, GcoStereo, gco_restore_pgm, gco_segment_pgm,
    gco_stereo_pgm,
};
use std::test::Fail;

/// Nothing told yet.
const NO_OUTCOME: GcoPictureTold = GcoPictureTold {
    energy: -1,
    data: -1,
    smooth: -1,
    label: -1,
    bytes: 9,
    place: 9,
    vmin: 9,
    vmax: 9,
    alpha: 9,
    beta: 9,
};

/// Whether this and no more is told: the energy and its parts; the length of the picture, the place
/// and the bound.
fn tells(told: &GcoPictureTold, parts: [i64; 4], rest: [u64; 4]) -> bool {
    [told.energy, told.data, told.smooth, told.label] == parts
        && [told.bytes, told.place, told.vmin, told.vmax] == rest
        && [told.alpha, told.beta] == [0, 0]
}

/// The middle sample goes: keeping it costs 2 for the pairs and 4 for two levels. Behind the
/// picture the buffer stays.
#[test]
fn restored_row(rt: HostRuntime) -> Result<(), Fail> {
    let options = GcoRestore {
        smooth: 0,
        trunc: 1,
        weight: 1,
        neighbours: 0,
        moves: 0,
        cycles: 100,
        label_cost: 2,
    };
    let mut out = [7u8; 14];
    let mut told = NO_OUTCOME;
    let status = gco_restore_pgm(
        rt.alloc(),
        &options,
        b"P5\n3 1\n3\n\0\x03\0",
        &mut out,
        &mut told,
    );
    assert_eq!(rt; status, 0);
    assert_eq!(rt; out, *b"P5\n3 1\n3\n\0\0\0\x07\x07");
    assert!(rt; tells(&told, [5, 3, 0, 2], [12, 0, 0, 0]));
    Ok(())
}

/// All but the left column moved by one column, and that one has no such column in the right view.
#[test]
fn matched_rows(rt: HostRuntime) -> Result<(), Fail> {
    let options = GcoStereo {
        labels: 2,
        cap: 20,
        smooth: 0,
        trunc: 1,
        weight: 1,
        neighbours: 0,
        moves: 0,
        cycles: 100,
    };
    let mut out = [7u8; 13];
    let mut told = NO_OUTCOME;
    let status = gco_stereo_pgm(
        rt.alloc(),
        &options,
        b"P5\n4 1\n99\n\x0A\x14\x1E\x28P5\n4 1\n99\n\x14\x1E\x28\0",
        &mut out,
        &mut told,
    );
    assert_eq!(rt; status, 0);
    assert_eq!(rt; out, *b"P5\n4 1\n1\n\0\x01\x01\x01");
    assert!(rt; tells(&told, [11, 10, 1, 0], [13, 0, 1, 1]));
    Ok(())
}

const PARTING: GcoSegment = GcoSegment {
    low: 0,
    high: 200,
    strong: 20,
    weak: 5,
    edge: 5,
    neighbours: 0,
    cycles: 100,
};

/// The seed of label 1 beside a sample of label 0: both pairs are cut, at 20 and at 5.
#[test]
fn parted_row(rt: HostRuntime) -> Result<(), Fail> {
    let mut out = [7u8; 12];
    let mut told = NO_OUTCOME;
    let status = gco_segment_pgm(
        rt.alloc(),
        &PARTING,
        b"P5\n3 1\n255\n\0\0\xC8P5\n3 1\n2\n\x02\0\0",
        &mut out,
        &mut told,
    );
    assert_eq!(rt; status, 0);
    assert_eq!(rt; out, *b"P5\n3 1\n1\n\x01\0\x01");
    assert!(rt; tells(&told, [25, 0, 25, 0], [12, 0, 0, 0]));
    Ok(())
}

/// A refused call: the options, the input, how much of the buffer there is, the status, how many
/// bytes and which place are told.
const REFUSED: [(GcoSegment, &[u8], usize, u32, u64, u64); 5] = [
    (
        PARTING,
        b"P5\n3 1\n255\n\0\0\xC8P5\n3 1\n2\n\x02\0\0",
        11,
        42,
        12,
        0,
    ),
    (
        GcoSegment {
            weak: 1001,
            cycles: 1001,
            ..PARTING
        },
        b"P5",
        12,
        41,
        0,
        3,
    ),
    (PARTING, b"P5\n3 1\n255\n\0\0\xC8", 12, 30, 0, 0),
    (PARTING, b"P5\n3 z", 12, 31, 0, 5),
    (
        PARTING,
        b"P5\n3 1\n255\n\0\0\xC8P5\n3 1\n3\n\x02\x03\0",
        12,
        39,
        0,
        1,
    ),
];

#[test]
fn refused_segments(rt: HostRuntime) -> Result<(), Fail> {
    for (place, row) in REFUSED.iter().enumerate() {
        let mut out = [7u8; 12];
        let mut told = NO_OUTCOME;
        let status = gco_segment_pgm(rt.alloc(), &row.0, row.1, &mut out[..row.2], &mut told);
        assert!(rt; status == row.3, "row {place}: status {status}");
        assert!(rt; out == [7; 12], "row {place}: the buffer is another");
        assert!(rt;
            tells(&told, [0; 4], [row.4, row.5, 0, 0]),
            "row {place}: told otherwise"
        );
    }
    Ok(())
}
