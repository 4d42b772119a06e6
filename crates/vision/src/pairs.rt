//! The pairs of pixels of a picture.
ghost use Rattle.std.specs.Prelude.{◌≡◌, ◌≤◌, ◌*◌, IfOk, map, false};
ghost use Rattle.run_options.specs.Ranges.{AreSegmentOptions};
ghost use Rattle.label_field.specs.Limits.{weight_limit};
ghost use Rattle.label_field.specs.PairLists.{IsPair};
ghost use Rattle.vision.specs.Problems.{edge_weight, pairs_of_picture, with_weight};

use label_field::{Pair, Pairs};
use pgm_image::Image;
use run_options::{Neighbours, SegmentOptions};
use std::alloc::{AllocError, Global};

/// The pairs of neighbours, each of this weight.
pub(crate) fn pairs_of(
    alloc: Global,
    picture: &Image,
    neighbours: Neighbours,
    weight: u32,
) -> Result<Pairs, AllocError>
    requires { weight ≤ weight_limit }
    ensures { IfOk result (λ pairs. pairs ≡ record {
      sites = picture.now.width * picture.now.height;
      list = pairs_of_picture neighbours weight picture.now;
      numbered = false;
    }) }
{
    let _samples = picture.samples();
    match neighbours {
        Neighbours::Four => Pairs::grid4(alloc, picture.width(), picture.height(), weight),
        Neighbours::Eight => Pairs::grid8(alloc, picture.width(), picture.height(), weight),
    }
}

/// The pairs of neighbours, each of the weight of its edge.
pub(crate) fn edge_pairs(
    alloc: Global,
    picture: &Image,
    options: &SegmentOptions,
) -> Result<Pairs, AllocError>
    requires { AreSegmentOptions options.now }
    ensures { IfOk result (λ pairs. pairs ≡ record {
      sites = picture.now.width * picture.now.height;
      list = map (with_weight (edge_weight options.now picture.now))
          (pairs_of_picture options.now.neighbours 0 picture.now);
      numbered = false;
    }) }
{
    let mut pairs = pairs_of(alloc, picture, options.neighbours, 0)?;
    weigh(&mut pairs, picture, options);
    Ok(pairs)
}

/// Gives each pair of pixels the weight of its edge.
fn weigh(pairs: &mut Pairs, picture: &Image, options: &SegmentOptions)
    requires options { AreSegmentOptions options.now }
    requires weighted { pairs.old.numbered ≡ false }
    requires sites { pairs.old.sites ≡ picture.now.width * picture.now.height }
    ensures { pairs.new ≡ record pairs.old {
      list = map (with_weight (edge_weight options.now picture.now)) pairs.old.list;
    } }
{
    for index in 0..pairs.len() {
        let weight = edge_weight(options, picture, pairs.get(index));
        pairs.set_weight(index, weight);
    }
}

/// The weight of a pair of pixels: `strong` where their samples differ by at most `edge`, else
/// `weak`.
fn edge_weight(options: &SegmentOptions, picture: &Image, pair: Pair) -> u32
    requires options { AreSegmentOptions options.now }
    requires pair { IsPair (picture.now.width * picture.now.height) pair }
    ensures value { result ≡ edge_weight options.now picture.now pair }
    ensures limit { result ≤ weight_limit }
{
    let samples = picture.samples();
    let first = u32::from(samples[pair.first as usize]);
    let second = u32::from(samples[pair.second as usize]);
    if first.abs_diff(second) <= options.edge {
        options.strong
    } else {
        options.weak
    }
}
