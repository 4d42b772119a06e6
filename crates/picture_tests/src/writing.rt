//! Images that are written, and writers that stop.
use crate::rows::{expect_at, hold, take_ok};
use crate::streams::CutWriter;
use byte_streams::Watched;
use pgm_image::{Image, WriteError, put_image, write_image};
use std::alloc::{AllocError, Global};
use std::process::Abort;

/// The bytes that a writer takes in a call, and whether it ends by a fault.
type Stop = (usize, bool);

const WRITERS: &[Stop] = &[
    (1, false),
    (1, true),
    (9_999, false),
    (9_999, true),
    (0, false),
];

/// Whether a writer that takes `room` bytes in all gets just these of the image's written form, and
/// the write tells that.
fn is_stopped(alloc: Global, image: &Image, whole: &[u8], room: usize, stop: &Stop) -> bool {
    let mut writer = CutWriter {
        faults: stop.1,
        ..CutWriter::new(alloc, room, stop.0)
    };
    let mut sink = Watched::new(&mut writer);
    let said = write_image(image, &mut sink);
    let failures = sink.failures();
    let count = if stop.0 == 0 {
        0
    } else {
        room.min(whole.len())
    };
    writer.held.as_slice() == &whole[..count] && tells(said, failures, count, whole.len())
}

/// Whether a write that took so many bytes of the whole tells that.
fn tells(said: Result<(), WriteError>, failures: u64, count: usize, whole: usize) -> bool {
    if count < whole {
        said == Err(WriteError::WriteFailed(count)) && failures == 1
    } else {
        said == Ok(()) && failures == 0
    }
}

/// Writes the image to writers that stop at this byte of its written form.
fn expect_stops(rt: &(impl Abort + AllocGlobal), image: &Image, whole: &[u8], room: usize) {
    for (place, stop) in WRITERS.iter().enumerate() {
        let is_right = is_stopped(rt.alloc(), image, whole, room, stop);
        expect_at(rt, place, room, is_right);
    }
}

/// An image all of whose samples are equal, its written form, and where its writers stop.
struct Even {
    size: (u32, u32),
    maxval: u32,
    sample: u16,
    count: usize,
    header: &'static [u8],
    bytes: &'static [u8],
    rooms: &'static [usize],
}

/// A small one, stopped everywhere; and one of more bytes than are made at once, stopped in its
/// header and round the end of its first piece.
const IMAGES: &[Even] = &[
    Even {
        size: (1, 1),
        maxval: 256,
        sample: 256,
        count: 1,
        header: b"P5\n1 1\n256\n",
        bytes: b"\x01\x00",
        rooms: &[0, 1, 2, 3, 4, 5, 6, 7, 8, 9, 10, 11, 12, 13],
    },
    Even {
        size: (60, 50),
        maxval: 258,
        sample: 0x0102,
        count: 3000,
        header: b"P5\n60 50\n258\n",
        bytes: b"\x01\x02",
        rooms: &[0, 12, 13, 14, 4108, 4109, 4110, 6012, 6013, 9999],
    },
];

/// The written form.
fn whole_of(alloc: Global, even: &Even) -> Result<Vec<u8>, AllocError> {
    let mut whole: Vec<u8> = Vec::new(alloc);
    whole.extend_from_slice(even.header)?;
    for _ in 0..even.count {
        whole.extend_from_slice(even.bytes)?;
    }
    Ok(whole)
}

/// Whether all bytes come to a writer that takes them.
fn is_put(alloc: Global, image: &Image, whole: &[u8]) -> bool {
    let mut held: Vec<u8> = Vec::new(alloc);
    let mut sink = Watched::new(&mut held);
    let is_done = put_image(image, &mut sink) == Ok(());
    is_done && sink.failures() == 0 && held.as_slice() == whole
}

/// Whether the samples of an image are all this, and so many.
fn are_even(image: Image, even: &Even) -> bool {
    let samples = image.into_samples();
    samples.len() == even.count && samples.iter().all(|sample| *sample == even.sample)
}

/// An image whose samples are equal.
fn image_of(rt: &(impl Abort + AllocGlobal), even: &Even) -> Image {
    let samples = take_ok(rt, vec![in rt.alloc(); even.sample; even.count]);
    hold(
        rt,
        Image::fits(even.size.0, even.size.1, even.maxval, samples.as_slice()),
    );
    Image::new(even.size.0, even.size.1, even.maxval, samples)
}

/// Writes an image to each writer, and takes its samples out again.
fn expect_even(rt: &(impl Abort + AllocGlobal), even: &Even) {
    let image = image_of(rt, even);
    let whole = take_ok(rt, whole_of(rt.alloc(), even));
    for room in even.rooms {
        expect_stops(rt, &image, whole.as_slice(), *room);
    }
    hold(rt, is_put(rt.alloc(), &image, whole.as_slice()));
    hold(rt, are_even(image, even));
}

#[test]
fn images_are_written(rt: HostRuntime) {
    for even in IMAGES {
        expect_even(&rt, even);
    }
}
