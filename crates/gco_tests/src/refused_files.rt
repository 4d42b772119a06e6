//! The first fault of a file.
use crate::rows::expect;
use problem_files::{LabelFault, LabelKey, read_label};

const BAD: &[(&str, LabelFault)] = &[
    ("sites = ", LabelFault::BadToml),
    (
        "labels = 2\ndata = []",
        LabelFault::BadField(LabelKey::Sites),
    ),
    ("sites = -1", LabelFault::BadField(LabelKey::Sites)),
    ("sites = 1048577", LabelFault::BadField(LabelKey::Sites)),
    ("sites = 4294967296", LabelFault::BadField(LabelKey::Sites)),
    ("sites = 2.0", LabelFault::BadField(LabelKey::Sites)),
    ("sites = 0", LabelFault::BadField(LabelKey::Labels)),
    (
        "sites = 0\nlabels = 0",
        LabelFault::BadField(LabelKey::Labels),
    ),
    (
        "sites = 0\nlabels = 257",
        LabelFault::BadField(LabelKey::Labels),
    ),
    (
        "sites = 0\nlabels = 1",
        LabelFault::BadField(LabelKey::Data),
    ),
    (
        "sites = 1\nlabels = 2\ndata = 3",
        LabelFault::BadField(LabelKey::Data),
    ),
    (
        "sites = 1\nlabels = 2\ndata = ['x']",
        LabelFault::BadField(LabelKey::Data),
    ),
    (
        "sites = 1\nlabels = 2\ndata = [-1, 'x']",
        LabelFault::BadElement(LabelKey::Data, 1),
    ),
    (
        "sites = 1\nlabels = 2\ndata = [0, -1]",
        LabelFault::CostRange(LabelKey::Data, 1),
    ),
    (
        "sites = 1\nlabels = 2\ndata = [10000001, -1]",
        LabelFault::CostRange(LabelKey::Data, 0),
    ),
    (
        "sites = 0\nlabels = 1\ndata = []\nsmooth = 'cubic'",
        LabelFault::BadField(LabelKey::Smooth),
    ),
    (
        "sites = 0\nlabels = 1\ndata = []\nsmooth = 1",
        LabelFault::BadField(LabelKey::Smooth),
    ),
    (
        "sites = 0\nlabels = 1\ndata = []\nsmooth = [0, 0]",
        LabelFault::BadField(LabelKey::Smooth),
    ),
    (
        "sites = 0\nlabels = 1\ndata = []\nsmooth = [true]",
        LabelFault::BadElement(LabelKey::Smooth, 0),
    ),
    (
        "sites = 0\nlabels = 1\ndata = []\nsmooth = [10001]",
        LabelFault::CostRange(LabelKey::Smooth, 0),
    ),
    (
        "sites = 0\nlabels = 1\ndata = []\ntrunc = 0",
        LabelFault::BadField(LabelKey::Trunc),
    ),
    (
        "sites = 0\nlabels = 1\ndata = []\ntrunc = 10001",
        LabelFault::BadField(LabelKey::Trunc),
    ),
    (
        "sites = 0\nlabels = 1\ndata = []\nstart = [0]",
        LabelFault::BadField(LabelKey::Start),
    ),
    (
        "sites = 1\nlabels = 1\ndata = [0]\nstart = [1]",
        LabelFault::NoSuchLabel(0),
    ),
    (
        "sites = 1\nlabels = 1\ndata = [0]\nstart = [-1]",
        LabelFault::NoSuchLabel(0),
    ),
    (
        "sites = 1\nlabels = 1\ndata = [0]\nstart = [0.0]",
        LabelFault::BadElement(LabelKey::Start, 0),
    ),
    (
        "sites = 0\nlabels = 1\ndata = []\nmoves = 'both'",
        LabelFault::BadField(LabelKey::Moves),
    ),
    (
        "sites = 0\nlabels = 1\ndata = []\ncycles = 1001",
        LabelFault::BadField(LabelKey::Cycles),
    ),
    // Of three pairs of two sites the first is in order, and the third is never looked at.
    (
        "sites = 2\nlabels = 1\ndata = [0, 0]\npairs = [[0, 1], 7, 'x']\nstart = 3",
        LabelFault::BadElement(LabelKey::Pairs, 1),
    ),
    (
        "sites = 2\nlabels = 1\ndata = [0, 0]\npairs = [[0, 1], [9], 'x']\nstart = 3",
        LabelFault::BadElement(LabelKey::Pairs, 1),
    ),
    (
        "sites = 2\nlabels = 1\ndata = [0, 0]\npairs = [[0, 1], [9, 9, 9, 9], 'x']\nstart = 3",
        LabelFault::BadElement(LabelKey::Pairs, 1),
    ),
    (
        "sites = 2\nlabels = 1\ndata = [0, 0]\npairs = [[0, 1], [9, 9, 1.0], 'x']\nstart = 3",
        LabelFault::BadElement(LabelKey::Pairs, 1),
    ),
    (
        "sites = 2\nlabels = 1\ndata = [0, 0]\npairs = [[0, 1], [0, 2], 'x']\nstart = 3",
        LabelFault::NoSuchSite(1),
    ),
    (
        "sites = 2\nlabels = 1\ndata = [0, 0]\npairs = [[0, 1], [-1, -1], 'x']\nstart = 3",
        LabelFault::NoSuchSite(1),
    ),
    (
        "sites = 2\nlabels = 1\ndata = [0, 0]\npairs = [[0, 1], [4294967296, 1], 'x']\nstart = 3",
        LabelFault::NoSuchSite(1),
    ),
    (
        "sites = 2\nlabels = 1\ndata = [0, 0]\npairs = [[0, 1], [1, 1, 1001], 'x']\nstart = 3",
        LabelFault::SamePair(1),
    ),
    (
        "sites = 2\nlabels = 1\ndata = [0, 0]\npairs = [[0, 1], [1, 0, 1001], 'x']\nstart = 3",
        LabelFault::WeightRange(1),
    ),
    (
        "sites = 2\nlabels = 1\ndata = [0, 0]\npairs = [[0, 1], [1, 0, -1], 'x']\nstart = 3",
        LabelFault::WeightRange(1),
    ),
    (
        "sites = 0\nlabels = 2\ndata = []\ncycles = 1001\nlabel_costs = 3",
        LabelFault::BadField(LabelKey::Cycles),
    ),
    (
        "sites = 0\nlabels = 2\ndata = []\nlabel_costs = 3",
        LabelFault::BadField(LabelKey::LabelCosts),
    ),
    (
        "sites = 0\nlabels = 2\ndata = []\nlabel_costs = []",
        LabelFault::BadField(LabelKey::LabelCosts),
    ),
    (
        "sites = 0\nlabels = 2\ndata = []\nlabel_costs = [-1]",
        LabelFault::BadField(LabelKey::LabelCosts),
    ),
    (
        "sites = 0\nlabels = 2\ndata = []\nlabel_costs = [-1, 'x']",
        LabelFault::BadElement(LabelKey::LabelCosts, 1),
    ),
    (
        "sites = 0\nlabels = 2\ndata = []\nlabel_costs = [10000000, -1]",
        LabelFault::CostRange(LabelKey::LabelCosts, 1),
    ),
    (
        "sites = 0\nlabels = 2\ndata = []\nlabel_costs = [10000001, -1]",
        LabelFault::CostRange(LabelKey::LabelCosts, 0),
    ),
    (
        "sites = 0\nlabels = 2\ndata = []\nlabel_costs = [0, 10000001]",
        LabelFault::CostRange(LabelKey::LabelCosts, 1),
    ),
];

#[test]
fn refuses_files(rt: HostRuntime) {
    for (place, row) in BAD.iter().enumerate() {
        let refused = read_label(rt.alloc(), row.0.as_bytes()).err();
        expect(&rt, place, refused == Some(row.1));
    }
}
