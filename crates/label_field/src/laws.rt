//! What the lists of `Pairs::grid4` and `Pairs::grid8` are, in the words of an image.
ghost use Rattle.std.specs.Prelude.{ℕ, ◌*◌};
ghost use Rattle.label_field.specs.Grids.{grid, steps4, steps8, ListsOnce, ShareEdge, Touch};

/// A law: the list of `Pairs::grid4` has exactly the pairs of sites that share an edge, the lower
/// site first, each pair once, in rising order of the first site.
pub fn grid4_lists_edges()
    ensures { (width height weight : ℕ)
        → ListsOnce (width * height) weight (ShareEdge width) (grid width height weight steps4) }
{}

/// A law: the list of `Pairs::grid8` has exactly the pairs of sites that share an edge or a corner,
/// the lower site first, each pair once, in rising order of the first site.
pub fn grid8_lists_touching()
    ensures { (width height weight : ℕ)
        → ListsOnce (width * height) weight (Touch width) (grid width height weight steps8) }
{}
