//! Files that are read. What each names was worked by hand.
use crate::rows::{expect, take_ok};
use label_energies::Moves;
use label_field::Pair;
use problem_files::{LabelProblem, read_label};

struct Row {
    file: &'static str,
    data: &'static [u32],
    smooth: &'static [i64],
    pairs: &'static [Pair],
    start: &'static [u8],
    moves: Moves,
    cycles: u32,
    label_costs: Option<&'static [i64]>,
}

const ONCE: Pair = Pair {
    first: 0,
    second: 1,
    weight: 1,
};

const HEAVY: Pair = Pair {
    first: 1,
    second: 0,
    weight: 1000,
};

const FREE: Pair = Pair {
    first: 0,
    second: 1,
    weight: 0,
};

const ROWS: &[Row] = &[
    // Each default.
    Row {
        file: "sites = 2\nlabels = 2\ndata = [0, 3, 10000000, 0]",
        data: &[0, 3, 10_000_000, 0],
        smooth: &[0, 1, 1, 0],
        pairs: &[],
        start: &[0, 0],
        moves: Moves::Expansion,
        cycles: 100,
        label_costs: None,
    },
    // A table that is not symmetric, pairs with and without a weight, costs of labels, and fields
    // that are passed over.
    Row {
        file: "title = 'two'\nsites = 2\nlabels = 3\ndata = [0,9,9,9,9,0]\nsmooth = [0,1,4,2,0,1,10000,3,0]\n\
               pairs = [[0,1],[1,0,1000],[0,1,0]]\nstart = [0,2]\nmoves = 'swap'\ncycles = 0\ntrunc = 7\n\
               label_costs = [0,10000000,5]",
        data: &[0, 9, 9, 9, 9, 0],
        smooth: &[0, 1, 4, 2, 0, 1, 10_000, 3, 0],
        pairs: &[ONCE, HEAVY, FREE],
        start: &[0, 2],
        moves: Moves::Swap,
        cycles: 0,
        label_costs: Some(&[0, 10_000_000, 5]),
    },
    // The least of min(|a - b|, 2).
    Row {
        file: "sites = 0\nlabels = 4\ndata = []\nsmooth = 'linear'\ntrunc = 2\nstart = []\npairs = []",
        data: &[],
        smooth: &[0, 1, 2, 2, 1, 0, 1, 2, 2, 1, 0, 1, 2, 2, 1, 0],
        pairs: &[],
        start: &[],
        moves: Moves::Expansion,
        cycles: 100,
        label_costs: None,
    },
    // The least of (a - b) squared and 5.
    Row {
        file: "sites = 1\nlabels = 4\ndata = [1,2,3,4]\nsmooth = 'quadratic'\ntrunc = 5\nstart = [3]\ncycles = 1000",
        data: &[1, 2, 3, 4],
        smooth: &[0, 1, 4, 5, 1, 0, 1, 4, 4, 1, 0, 1, 5, 4, 1, 0],
        pairs: &[],
        start: &[3],
        moves: Moves::Expansion,
        cycles: 1000,
        label_costs: None,
    },
    // Potts does not look at the cut.
    Row {
        file: "sites = 1\nlabels = 1\ndata = [0]\nsmooth = 'potts'\ntrunc = 10000\nmoves = 'expansion'",
        data: &[0],
        smooth: &[0],
        pairs: &[],
        start: &[0],
        moves: Moves::Expansion,
        cycles: 100,
        label_costs: None,
    },
];

fn is_read(problem: &LabelProblem, row: &Row) -> bool {
    problem.data.as_slice() == row.data
        && problem.smooth.as_slice() == row.smooth
        && problem.pairs.as_slice() == row.pairs
        && problem.start.as_slice() == row.start
        && problem.moves == row.moves
        && problem.cycles == row.cycles
        && are_costs(&problem.label_costs, row.label_costs)
}

/// Whether the costs of labels are these, or both are none.
fn are_costs(costs: &Option<Vec<i64>>, told: Option<&[i64]>) -> bool {
    match (costs, told) {
        (Some(costs), Some(told)) => costs.as_slice() == told,
        (None, None) => true,
        _ => false,
    }
}

#[test]
fn reads_files(rt: HostRuntime) {
    for (place, row) in ROWS.iter().enumerate() {
        let problem = take_ok(&rt, read_label(rt.alloc(), row.file.as_bytes()));
        expect(&rt, place, is_read(&problem, row));
    }
}
