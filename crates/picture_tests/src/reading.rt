//! Images that are read, and what is refused.
use crate::rows::expect;
use pgm_image::{Image, PgmError, read_image};
use std::alloc::Global;

/// Bytes, and the image at their front: width and height, maxval, samples, how many bytes it takes.
type Read = (&'static [u8], (u32, u32), u32, &'static [u16], usize);

const IMAGES: &[Read] = &[
    (
        b"P5\n# made by a drawing program\n1 1\n255\n\x07",
        (1, 1),
        255,
        &[7],
        40,
    ),
    (b"P2 2 1 7 3 5", (2, 1), 7, &[3, 5], 12),
    (b"P2 2 1 7 3 5 9", (2, 1), 7, &[3, 5], 12),
    (b"P2\t1\r2\n7 3\n#5\n # 6\r 5\n", (1, 2), 7, &[3, 5], 21),
    (b"P2 2 1 7\n# two\n3 #\n5", (2, 1), 7, &[3, 5], 20),
    (b"P5 1 1 256\n\x01\x00", (1, 1), 256, &[256], 13),
    (b"P5 2 1 255 \xff\x00", (2, 1), 255, &[255, 0], 13),
    (b"P5\n1 1\n255\r\n", (1, 1), 255, &[10], 12),
    (b"P5 00000001 1 255\n\x07", (1, 1), 255, &[7], 19),
    (b"P5\n3 1\n2\n\x00\x02\x01", (3, 1), 2, &[0, 2, 1], 12),
];

/// Whether an image is that of a row.
fn is_image(image: &Image, row: &Read) -> bool {
    image.width() == row.1.0
        && image.height() == row.1.1
        && image.maxval() == row.2
        && image.samples() == row.3
}

/// Whether the image of a row is read.
fn is_read(alloc: Global, row: &Read) -> bool {
    match read_image(alloc, row.0) {
        Ok((image, used)) => is_image(&image, row) && used == row.4,
        Err(_) => false,
    }
}

#[test]
fn images_are_read(rt: HostRuntime) {
    for (place, row) in IMAGES.iter().enumerate() {
        expect(&rt, place, is_read(rt.alloc(), row));
    }
}

const FAULTS: &[(&[u8], PgmError)] = &[
    (b"", PgmError::NotPgm),
    (b"P", PgmError::NotPgm),
    (b"P6 1 1 255", PgmError::NotPgm),
    (b"P5", PgmError::BadHeader(2)),
    (b"P5\n1 x", PgmError::BadHeader(5)),
    (b"P5\n3 1", PgmError::BadHeader(6)),
    (b"P5 # x", PgmError::BadHeader(6)),
    (b"P5#", PgmError::BadHeader(2)),
    (b"P51 1 1", PgmError::BadHeader(2)),
    (b"P5 1 1#", PgmError::BadHeader(6)),
    (b"P5 0 9999 0", PgmError::BadHeader(11)),
    (b"P5 0 9999 0\n", PgmError::ZeroSize),
    (b"P5 0 1 255\n", PgmError::ZeroSize),
    (b"P2 1 0 255\n", PgmError::ZeroSize),
    (b"P5 4097 1 255\n", PgmError::TooLarge),
    (b"P5 1 4097 0\n", PgmError::TooLarge),
    (b"P5 4096 4096 255\n", PgmError::TooLarge),
    (
        b"P5 99999999999999999999999999999999999999999 1 255\n",
        PgmError::TooLarge,
    ),
    (b"P5 18446744073709551617 1 255\n\x07", PgmError::TooLarge),
    (b"P5 1 1 0\n", PgmError::BadMaxval),
    (b"P5 1 1 65536\n", PgmError::BadMaxval),
    (b"P5 3 1 2\n", PgmError::Truncated),
    (b"P5 3 1 2\n\x00\x02", PgmError::Truncated),
    (b"P5 2 1 255\n\x01", PgmError::Truncated),
    (b"P5 1 1 256\n\x01", PgmError::Truncated),
    (b"P5 2 1 3\n\x04", PgmError::Truncated),
    (b"P5 2 1 3\n\x00\x04", PgmError::SampleAboveMax(1)),
    (b"P2 2 1 7 3 8", PgmError::SampleAboveMax(1)),
    (b"P2 2 1 7 8 x", PgmError::SampleAboveMax(0)),
    (b"P2 2 1 7 3", PgmError::Truncated),
    (b"P2 2 1 7 3 # not ended", PgmError::Truncated),
    (b"P2 1 1 7 3#", PgmError::BadSample(10)),
    (b"P2 1 1 7 9x", PgmError::BadSample(10)),
    (b"P2 1 1 7 x", PgmError::BadSample(9)),
    (b"P2 1 1 65535 00065535P5", PgmError::BadSample(21)),
];

#[test]
fn faults_are_told(rt: HostRuntime) {
    for (place, row) in FAULTS.iter().enumerate() {
        let is_told = read_image(rt.alloc(), row.0).err() == Some(row.1);
        expect(&rt, place, is_told);
    }
}
