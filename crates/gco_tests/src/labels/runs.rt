//! Runs over small files. What each writes was worked by hand.
use crate::rows::{expect, take_ok};
use crate::streams::ends_alike;
use std::process::Abort;
use std::sync::Wait;
use std::thread::Threads;

// Two sites at labels 0 and 2, which cost 4 beside each other. Label 1 costs 1 beside each.
const APART: &str =
    "sites = 2\nlabels = 3\nsmooth = [0,1,4,1,0,1,4,1,0]\npairs = [[0,1]]\nstart = [0,2]\n";

// Two sites that each want their own of two labels.
const UNLIKE: &str = "sites = 2\nlabels = 2\ndata = [0,3,3,0]\n";

// Two sites without pairs, each with a label of its own and one that both can have.
const FREE: &str = "sites = 2\nlabels = 3\ndata = [0,3,9,9,3,0]\n";

const DISTRICTS: &str = "sites = 5\nlabels = 3\ndata = [4,6,9,7,5,6,8,4,7,9,7,3,6,8,5]\n\
                         pairs = [[0,1,3],[1,2,2],[2,3,2],[3,4,4],[1,3],[0,4]]\n";

const THREE_PIXELS: &str = "sites = 3\nlabels = 4\ndata = [0,1,2,3,3,2,1,0,0,1,2,3]\n";

// Four sites in a row, whose pairs weigh 3, 3 and 2, from a start of three labels.
const STREET: &str = "sites = 4\nlabels = 3\ndata = [8,2,1,3,7,4,3,4,6,9,5,3]\nstart = [1,2,0,0]\n\
                      pairs = [[0,1,3],[1,2,3],[2,3,2]]\nmoves = 'swap'\n";

/// A file in two parts, the exit status, what is written, and what is said.
type Row = (&'static str, &'static str, u8, &'static str, &'static str);

const ROWS: &[Row] = &[
    (
        DISTRICTS,
        "",
        0,
        "energy 27 data 23 smooth 4\nlabels 1 1 1 2 2\n",
        "",
    ),
    // A row of three pixels 0 3 0, restored with weight 1: expanding 3 is worth its two borders.
    (
        THREE_PIXELS,
        "pairs = [[0,1],[1,2]]",
        0,
        "energy 2 data 0 smooth 2\nlabels 0 3 0\n",
        "",
    ),
    // With weight 2 it is not.
    (
        THREE_PIXELS,
        "pairs = [[0,1,2],[1,2,2]]",
        0,
        "energy 3 data 3 smooth 0\nlabels 0 0 0\n",
        "",
    ),
    // The rows 0 9 0 0 and 9 0 0 0 of a stereo pair: each pixel is found one to the left.
    (
        "sites = 4\nlabels = 2\ndata = [9,9,9,0,0,0,0,0]\n",
        "pairs = [[0,1],[1,2],[2,3]]",
        0,
        "energy 9 data 9 smooth 0\nlabels 1 1 1 1\n",
        "",
    ),
    // Pixels 10 12 200 in two segments, of which the first and the last are given.
    (
        "sites = 3\nlabels = 2\ndata = [0,10000000,1,188,10000000,0]\n",
        "pairs = [[0,1,20],[1,2,5]]",
        0,
        "energy 6 data 1 smooth 5\nlabels 0 0 1\n",
        "",
    ),
    // Without a cycle the start stays, at 3 + 3; an expansion of label 1 would cost nothing.
    (
        "sites = 2\nlabels = 2\ndata = [3,0,3,0]\npairs = [[0,1,5]]\n",
        "cycles = 0",
        0,
        "energy 6 data 6 smooth 0\nlabels 0 0\n",
        "",
    ),
    (
        "sites = 2\nlabels = 2\ndata = [3,0,3,0]\npairs = [[0,1,5]]\n",
        "cycles = 1",
        0,
        "energy 0 data 0 smooth 0\nlabels 1 1\n",
        "",
    ),
    // The start costs 2 + 4 + 3 + 9 at the sites, and 3 for each of the first two pairs.
    (
        STREET,
        "cycles = 0",
        0,
        "energy 24 data 18 smooth 6\nlabels 1 2 0 0\n",
        "",
    ),
    // Swaps by turns lead to label 2 everywhere, which costs 1 + 4 + 6 + 3; the fourth cycle
    // changes nothing.
    (
        STREET,
        "cycles = 9",
        0,
        "energy 14 data 14 smooth 0\nlabels 2 2 2 2\n",
        "",
    ),
    // To expand label 1 makes the term 4, 1, 1, 0: 4 + 0 is above 1 + 1.
    (
        APART,
        "data = [0,9,9,9,9,0]",
        1,
        "",
        "refused 24 pair 0 alpha 1\n",
    ),
    (
        APART,
        "data = [0,9,9,9,9,0]\nmoves = 'swap'",
        0,
        "energy 4 data 0 smooth 4\nlabels 0 2\n",
        "",
    ),
    (
        APART,
        "data = [0,9,3,3,9,0]\nmoves = 'swap'",
        0,
        "energy 3 data 3 smooth 0\nlabels 0 0\n",
        "",
    ),
    (
        APART,
        "data = [0,9,3,3,9,0]\nmoves = 'swap'\ncycles = 0",
        0,
        "energy 4 data 0 smooth 4\nlabels 0 2\n",
        "",
    ),
    // The cost of two unlike labels is 0, and of label 1 twice is 1: 0 + 1 is above 0 + 0.
    (
        "sites = 2\nlabels = 2\ndata = [0,0,0,0]\nsmooth = [0,0,0,1]\npairs = [[0,1]]\n",
        "moves = 'swap'",
        1,
        "",
        "refused 24 pair 0 alpha 0 beta 1\n",
    ),
    // A pair that is listed twice counts twice.
    (
        UNLIKE,
        "pairs = [[0,1],[0,1]]",
        0,
        "energy 2 data 0 smooth 2\nlabels 0 1\n",
        "",
    ),
    (
        UNLIKE,
        "pairs = [[0,1],[0,1],[0,1]]",
        0,
        "energy 3 data 3 smooth 0\nlabels 0 0\n",
        "",
    ),
    // Labels 1 and 2 are equally good: the first expansion leads to 1, and the next keeps it.
    (
        "sites = 1\nlabels = 3\n",
        "data = [1,0,0]",
        0,
        "energy 0 data 0 smooth 0\nlabels 1\n",
        "",
    ),
    (
        "sites = 0\nlabels = 2\n",
        "data = []",
        0,
        "energy 0 data 0 smooth 0\nlabels\n",
        "",
    ),
    // Each label that some site has costs 5: both sites at label 1 cost 6 and 5.
    (
        FREE,
        "label_costs = [5,5,5]",
        0,
        "energy 11 data 6 smooth 0 label 5\nlabels 1 1\n",
        "",
    ),
    (
        FREE,
        "label_costs = [2,2,2]",
        0,
        "energy 4 data 0 smooth 0 label 4\nlabels 0 2\n",
        "",
    ),
    // 0 1 and 1 1 are both 9.
    (
        "sites = 2\nlabels = 2\ndata = [0,3,9,3]\n",
        "label_costs = [3,3]",
        0,
        "energy 9 data 3 smooth 0 label 6\nlabels 0 1\n",
        "",
    ),
    (
        UNLIKE,
        "label_costs = [0,1]\nmoves = 'swap'",
        1,
        "",
        "refused 27\n",
    ),
    // Before the first move, and where none is to be made.
    (
        "sites = 2\nlabels = 2\ndata = [0,0,0,0]\nsmooth = [0,0,0,1]\npairs = [[0,1]]\n",
        "label_costs = [0,1]\nmoves = 'swap'\ncycles = 0",
        1,
        "",
        "refused 27\n",
    ),
    // But behind every field.
    (
        UNLIKE,
        "label_costs = [0,1,1]\nmoves = 'swap'",
        1,
        "",
        "refused 29 label_costs\n",
    ),
    (
        UNLIKE,
        "label_costs = [0,10000001]\nmoves = 'swap'",
        1,
        "",
        "refused 15 label 1\n",
    ),
    (
        UNLIKE,
        "label_costs = [0,0]\nmoves = 'swap'",
        0,
        "energy 0 data 0 smooth 0 label 0\nlabels 0 1\n",
        "",
    ),
    ("sites = ", "", 1, "", "refused 28\n"),
    (
        "sites = 1\nlabels = 2\n",
        "data = [0]",
        1,
        "",
        "refused 29 data\n",
    ),
    (
        "sites = 2\nlabels = 2\n",
        "data = [0,0,0]",
        1,
        "",
        "refused 29 data\n",
    ),
    (
        "sites = 2\nlabels = 2\n",
        "data = [0,0,0,10000001]",
        1,
        "",
        "refused 15 data 3\n",
    ),
    (UNLIKE, "pairs = [[0]]", 1, "", "refused 29 pairs 0\n"),
    (UNLIKE, "pairs = [[0,2]]", 1, "", "refused 10 pair 0\n"),
    (UNLIKE, "pairs = [[1,1]]", 1, "", "refused 12 pair 0\n"),
    (UNLIKE, "pairs = [[0,1,1001]]", 1, "", "refused 14 pair 0\n"),
    (
        UNLIKE,
        "smooth = [0,10001,1,0]",
        1,
        "",
        "refused 15 smooth 1\n",
    ),
];

/// The same where a bound is asked for.
const BOUNDS: &[Row] = &[
    (
        UNLIKE,
        "pairs = [[0,1],[0,1]]",
        0,
        "energy 2 data 0 smooth 2\nlabels 0 1\nbound 1 2\n",
        "",
    ),
    // A cycle that changed something was the last.
    (
        UNLIKE,
        "pairs = [[0,1],[0,1]]\ncycles = 1",
        0,
        "energy 2 data 0 smooth 2\nlabels 0 1\nbound none\n",
        "",
    ),
    (
        UNLIKE,
        "pairs = [[0,1],[0,1]]\nmoves = 'swap'",
        0,
        "energy 2 data 0 smooth 2\nlabels 0 1\nbound none\n",
        "",
    ),
    (
        FREE,
        "label_costs = [5,5,5]",
        0,
        "energy 11 data 6 smooth 0 label 5\nlabels 1 1\nbound none\n",
        "",
    ),
    (
        FREE,
        "label_costs = [2,2,2]",
        0,
        "energy 4 data 0 smooth 0 label 4\nlabels 0 2\nbound none\n",
        "",
    ),
    (
        "sites = 2\nlabels = 2\ndata = [0,3,9,3]\n",
        "label_costs = [3,3]",
        0,
        "energy 9 data 3 smooth 0 label 6\nlabels 0 1\nbound none\n",
        "",
    ),
    (
        FREE,
        "label_costs = [0,0,0]\nsmooth = 'linear'\ntrunc = 2",
        0,
        "energy 0 data 0 smooth 0 label 0\nlabels 0 2\nbound 1 4\n",
        "",
    ),
    // By way of label 1 the labels 0 and 2 are nearer.
    (
        APART,
        "data = [0,9,9,0,9,9]",
        0,
        "energy 0 data 0 smooth 0\nlabels 0 0\nbound none\n",
        "",
    ),
    // One label alone is the least.
    (
        "sites = 1\nlabels = 1\n",
        "data = [7]",
        0,
        "energy 7 data 7 smooth 0\nlabels 0\nbound 1 2\n",
        "",
    ),
    (UNLIKE, "pairs = [[1,1]]", 1, "", "refused 12 pair 0\n"),
];

/// Whether a run with these words over the two parts of a row's file ends as the row tells,
/// whatever workers are asked for.
fn is_run(
    rt: &(impl AllocGlobal + Abort + Threads + Wait + Sync),
    words: &[&str],
    row: &Row,
) -> bool {
    let (first, second) = (row.0, row.1);
    let file = take_ok(rt, format!(in rt.alloc(); "{first}{second}"));
    ends_alike(rt, words, file.as_bytes(), row.2, row.3.as_bytes(), row.4)
}

#[test]
fn runs(rt: HostRuntime) {
    for (place, row) in ROWS.iter().enumerate() {
        expect(&rt, place, is_run(&rt, &["gco", "label"], row));
    }
}

#[test]
fn bounds(rt: HostRuntime) {
    for (place, row) in BOUNDS.iter().enumerate() {
        expect(&rt, place, is_run(&rt, &["gco", "label", "--bound"], row));
    }
}
