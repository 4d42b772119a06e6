//! The pairs of neighbours of an image.
ghost use Rattle.std.specs.Prelude.{◌≡◌, ◌+◌, ◌-◌, ◌*◌, ◌<◌, ◌≤◌, ◌++◌, ◌↔◌, IsTrue, IfOk, OnOk};
ghost use Rattle.std.specs.Prelude.{if◌then◌else◌, Some, None, false};
ghost use Rattle.std.specs.List.{All};
ghost use Rattle.label_field.specs.Limits.{site_limit, weight_limit};
ghost use Rattle.label_field.specs.Grids.{IsImage, IsSmallStep, AreSmallSteps, edge_count};
ghost use Rattle.label_field.specs.Grids.{corner_count};
ghost use Rattle.label_field.specs.Grids.{IsImagePlace};
ghost use Rattle.label_field.specs.Grids.{column, row, stays, step_end, pair_to, pairs_of_steps};
ghost use Rattle.label_field.specs.Grids.{grid as grid_list, steps4, steps8};

use crate::{Pair, Pairs, SITE_LIMIT};
use std::alloc::{AllocError, Global};

/// The greatest width and the greatest height of an image, in pixels; the least is 1.
pub const SIDE_LIMIT: u32 = 4096;

/// A step from a place of an image to a neighbour that comes after it: so many columns to the
/// right, less so many to the left, and so many rows down.
#[derive(Clone, Copy)]
pub(crate) struct Step {
    right: u32,
    left: u32,
    down: u32,
}

const RIGHT: Step = Step {
    right: 1,
    left: 0,
    down: 0,
};

const DOWN: Step = Step {
    right: 0,
    left: 0,
    down: 1,
};

const DOWN_RIGHT: Step = Step {
    right: 1,
    left: 0,
    down: 1,
};

const DOWN_LEFT: Step = Step {
    right: 0,
    left: 1,
    down: 1,
};

#[derive(Clone, Copy)]
struct Image {
    width: u32,
    height: u32,
    ghost fits: { IsImage width height },
}

impl Image {
    // How many pairs of its sites share an edge.
    fn edges(&self) -> usize
        ensures value { result ≡ edge_count self.now.width self.now.height }
        ensures bound { result ≤ 2 * site_limit }
    {
        let (width, height) = (self.width as usize, self.height as usize);
        (width - 1) * height + width * (height - 1)
    }

    // How many pairs of its sites share a corner alone.
    fn corners(&self) -> usize
        ensures value { result ≡ corner_count self.now.width self.now.height }
        ensures bound { result ≤ 2 * site_limit }
    {
        2 * ((self.width as usize - 1) * (self.height as usize - 1))
    }
}

impl Step {
    // The site where the step from this place ends, if that is in the image.
    fn end(&self, image: Image, x: u32, y: u32) -> Option<u32>
        requires small { IsSmallStep self.now }
        requires column { x < image.width }
        requires row { y < image.height }
        ensures { result ≡ (if stays image.width image.height x y self.now
            then Some (step_end image.width x y self.now) else None) }
    {
        let in_image = self.left <= x
            && x + self.right < image.width + self.left
            && y + self.down < image.height;
        if in_image {
            Some(x + self.right - self.left + (y + self.down) * image.width)
        } else {
            None
        }
    }
}

// A site, and the column and the row where it lies.
#[derive(Clone, Copy)]
struct Place {
    site: u32,
    x: u32,
    y: u32,
}

// The place of the next site.
fn next_place(image: Image, place: Place) -> Place
    requires { IsImagePlace image.width image.height place }
    ensures site { result.site ≡ place.site + 1 }
    ensures place { place.site + 1 < image.width * image.height →
        IsImagePlace image.width image.height result }
{
    let site = place.site + 1;
    if place.x + 1 < image.width {
        return Place {
            site,
            x: place.x + 1,
            y: place.y,
        };
    }
    Place {
        site,
        x: 0,
        y: place.y + 1,
    }
}

// The pair of a site with the place of the image where a step from it ends, if there is one.
fn pair_at(image: Image, from: Place, step: &Step, weight: u32) -> Option<Pair>
    requires place { IsImagePlace image.width image.height from }
    requires small { IsSmallStep step.now }
    ensures { result ≡ (if stays image.width image.height (column image.width from.site)
        (row image.width from.site) step.now then Some
        (pair_to image.width weight from.site step.now) else None) }
{
    let second = step.end(image, from.x, from.y)?;
    Some(Pair {
        first: from.site,
        second,
        weight,
    })
}

// Adds the pairs of a site with its neighbours, in the order of the steps.
fn push_pairs(
    list: &mut Vec<Pair>,
    image: Image,
    place: Place,
    steps: &[Step],
    weight: u32,
) -> Result<(), AllocError>
    requires place { IsImagePlace image.width image.height place }
    requires small { All IsSmallStep steps.now }
    ensures { OnOk result (list.new.items
        ≡ list.old.items ++ pairs_of_steps image.width image.height weight steps.now
        place.site) }
{
    for step in steps {
        if let Some(pair) = pair_at(image, place, step, weight) {
            list.push(pair)?;
        }
    }
    Ok(())
}

// The pairs of each site, site by site.
fn grid(
    alloc: Global,
    image: Image,
    weight: u32,
    steps: &[Step],
    count: usize,
) -> Result<Pairs, AllocError>
    requires steps { AreSmallSteps steps.now }
    requires weight { weight ≤ weight_limit }
    ensures { IfOk result (λ pairs. pairs ≡ record {
      sites = image.width * image.height;
      list = grid_list image.width image.height weight steps.now;
      numbered = false;
    }) }
{
    let sites = image.width * image.height;
    let mut list = Vec::with_capacity(alloc, count)?;
    let mut place = Place {
        site: 0,
        x: 0,
        y: 0,
    };
    for _site in 0..sites {
        push_pairs(&mut list, image, place, steps, weight)?;
        place = next_place(image, place);
    }
    Ok(Pairs::of_list(sites, list))
}

impl Pairs {
    /// Whether an image may have this width and this height: each from 1 to `SIDE_LIMIT`, and their
    /// product at most `SITE_LIMIT`.
    pub fn fits_image(width: u32, height: u32) -> bool
        ensures { IsTrue result ↔ IsImage width height }
    {
        1 <= width
            && width <= SIDE_LIMIT
            && 1 <= height
            && height <= SIDE_LIMIT
            && width * height <= SITE_LIMIT
    }

    /// The pairs of the sites of an image that share an edge, all of one weight, from 0 to
    /// `WEIGHT_LIMIT`. The site in column x and row y is x + y * width. For each site in rising
    /// order comes its pair with the one on its right, and then with the one below, where there is
    /// one. `Pairs::fits_image` tells whether an image may have these sides. Refused for memory
    /// alone.
    pub fn grid4(alloc: Global, width: u32, height: u32, weight: u32) -> Result<Pairs, AllocError>
        requires image { IsImage width height }
        requires weight { weight ≤ weight_limit }
        ensures { IfOk result (λ pairs. pairs
            ≡ record {
              sites = width * height;
              list = grid_list width height weight steps4;
              numbered = false;
            }) }
    {
        let image = Image { width, height };
        grid(alloc, image, weight, &[RIGHT, DOWN], image.edges())
    }

    /// The pairs of the sites of an image that share an edge or a corner, all of one weight. As
    /// `Pairs::grid4`, and after these two come the pairs of the site with the ones down on the
    /// right and down on the left, where there is one.
    pub fn grid8(alloc: Global, width: u32, height: u32, weight: u32) -> Result<Pairs, AllocError>
        requires image { IsImage width height }
        requires weight { weight ≤ weight_limit }
        ensures { IfOk result (λ pairs. pairs
            ≡ record {
              sites = width * height;
              list = grid_list width height weight steps8;
              numbered = false;
            }) }
    {
        let image = Image { width, height };
        let count = image.edges() + image.corners();
        grid(
            alloc,
            image,
            weight,
            &[RIGHT, DOWN, DOWN_RIGHT, DOWN_LEFT],
            count,
        )
    }
}
