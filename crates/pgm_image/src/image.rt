//! A grey image.
ghost use Rattle.std.specs.Prelude.{◌≡◌, ◌≤◌, ◌*◌, ◌↔◌, IsTrue, All};
ghost use Rattle.pgm_image.specs.Picture.{Picture, picture, IsPicture, SizeFits};

use std::marker::Model;

/// The greatest width and the greatest height of an image, in samples; the least is 1.
pub const SIDE_LIMIT: u32 = 4096;

/// The greatest number of samples of an image, which is its width times its height; the least is 1.
pub const SAMPLE_LIMIT: u32 = 1_048_576;

/// The greatest maxval; the least is 1. It is the PGM format's own.
pub const MAXVAL_LIMIT: u32 = 65_535;

/// A grey image: its samples by rows from the top, each row from the left, and none above `maxval`.
/// 0 is black, `maxval` is white (the Netpbm project's PGM page).
#[derive(Debug, Drop)]
pub struct Image {
    width: u32,
    height: u32,
    maxval: u32,
    samples: Vec<u16>,
}

impl Model for Image {
    ghost Value = { Picture };

    ghost view = { λ i. picture i.width i.height i.maxval i.samples.items };

    ghost invariant = { λ i. IsPicture (picture i.width i.height i.maxval i.samples.items) };
}

pub(crate) fn size_fits(width: u32, height: u32) -> bool
    ensures { IsTrue result ↔ SizeFits width height }
{
    1 <= width
        && width <= SIDE_LIMIT
        && 1 <= height
        && height <= SIDE_LIMIT
        && width * height <= SAMPLE_LIMIT
}

fn none_above(maxval: u32, samples: &[u16]) -> bool
    ensures { IsTrue result ↔ All (λ x. x ≤ maxval) samples.now }
{
    samples.iter().all(|&sample| u32::from(sample) <= maxval)
}

impl Image {
    /// An image of these samples, by rows from the top and each row from the left. `Image::fits`
    /// tells whether they make one.
    pub fn new(width: u32, height: u32, maxval: u32, samples: Vec<u16>) -> Image
        requires { IsPicture (picture width height maxval samples.items) }
        ensures { result ≡ picture width height maxval samples.items }
    {
        Image {
            width,
            height,
            maxval,
            samples,
        }
    }

    /// Whether these four make an image: the width and the height from 1 to `SIDE_LIMIT`, their
    /// product at most `SAMPLE_LIMIT`, `maxval` from 1 to `MAXVAL_LIMIT`, as many samples as that
    /// product, and none above `maxval`.
    pub fn fits(width: u32, height: u32, maxval: u32, samples: &[u16]) -> bool
        ensures { IsTrue result ↔ IsPicture (picture width height maxval samples.now) }
    {
        size_fits(width, height)
            && 1 <= maxval
            && maxval <= MAXVAL_LIMIT
            && samples.len() == (width * height) as usize
            && none_above(maxval, samples)
    }

    /// The width, in samples, from 1 to `SIDE_LIMIT`.
    pub fn width(&self) -> u32
        ensures { result ≡ self.now.width }
    {
        self.width
    }

    /// The height, in samples, from 1 to `SIDE_LIMIT`.
    pub fn height(&self) -> u32
        ensures { result ≡ self.now.height }
    {
        self.height
    }

    /// The greatest value that a sample may have, from 1 to `MAXVAL_LIMIT`.
    pub fn maxval(&self) -> u32
        ensures { result ≡ self.now.maxval }
    {
        self.maxval
    }

    /// The samples, by rows from the top and each row from the left: `width` times `height` of
    /// them, each from 0 to `maxval`.
    pub fn samples(&self) -> &[u16]
        ensures value { result.now ≡ self.now.samples }
        ensures valid { IsPicture self.now }
    {
        &self.samples
    }

    /// The samples, as `Image::samples` tells them. It takes no memory.
    pub fn into_samples(self) -> Vec<u16>
        ensures { result.items ≡ self.samples }
    {
        self.samples
    }
}
