//! Why a call was refused, and the numbers that tell it.
ghost use Rattle.std.specs.Prelude.{◌≡◌, ◌≢◌};
ghost use Rattle.gco_arrays.specs.Statuses.{fixed_numbers, fixed_of, labels_of, told_place};
ghost use Rattle.gco_arrays.specs.Statuses.{status_of, unfinished_status};

use regular::Fixed;

/// Why a call was refused. Pairs, sites, terms and entries go by their place in the array that was
/// given, from 0.
#[derive(Clone, Copy)]
pub enum Refusal {
    /// Memory was refused.
    OutOfMemory,
    /// There are more sites than a labelling may have, or more variables than an energy.
    TooManySites,
    /// There is no label, or there are more than a labelling may have.
    LabelCount,
    /// There is not one data cost for each label at each site.
    DataCount,
    /// There is not one smooth cost for each two labels.
    SmoothCount,
    /// The number names no moves.
    NoSuchMoves,
    /// There are label costs, and not one for each label.
    LabelCostCount,
    /// A label of the move is not there.
    NoSuchMove,
    /// The search for a bound takes more memory than is allowed.
    TooLarge,
    /// A pair or a term names a site or a variable that is not there.
    NoSuchSite(usize),
    /// A site starts with a label that is not there.
    NoSuchLabel(usize),
    /// A pair or a term names a site or a variable twice.
    SameSite(usize),
    /// There are more pairs or terms than a list may have.
    TooManyPairs,
    /// The weight of a pair, or a number of a term, is out of its range.
    WeightRange(usize),
    /// A data cost is out of its range.
    DataRange(usize),
    /// A smooth cost is out of its range.
    SmoothRange(usize),
    /// What a label costs by itself is out of its range.
    LabelCostRange(usize),
    /// The constant is out of its range.
    ConstantRange,
    /// The term at a place is not regular; of one of three variables, where one of them is fixed.
    TermNotRegular {
        term: usize,
        fixed: Option<Fixed>,
    },
    /// The term of a pair is not regular in the move that is due.
    NotRegular {
        pair: usize,
        alpha: u32,
        beta: Option<u32>,
    },
    /// A swap, where a label costs something by itself.
    LabelCostInSwap,
    /// What was lent of a run under way has other sizes, or is past the end of its cycles.
    NoSuchCourse,
    /// There are numbers of tables, and not one for each pair.
    TableOfCount,
    /// The table of a pair is not there.
    NoSuchTable(usize),
    /// The weight of a pair times an entry of its table is above the greatest cost of a pair.
    PairCostRange(usize),
}

impl Refusal {
    /// The number that a call answers for it.
    pub fn status(self) -> u32
        ensures value { result ≡ status_of self }
        ensures some { (result ≢ 0) × (result ≢ unfinished_status) }
    {
        match self {
            Refusal::OutOfMemory => 1,
            Refusal::TooManySites => 2,
            Refusal::LabelCount => 3,
            Refusal::DataCount => 4,
            Refusal::SmoothCount => 5,
            Refusal::NoSuchMoves => 6,
            Refusal::LabelCostCount => 7,
            Refusal::NoSuchMove => 8,
            Refusal::TooLarge => 9,
            Refusal::NoSuchSite(_) => 10,
            Refusal::NoSuchLabel(_) => 11,
            Refusal::SameSite(_) => 12,
            Refusal::TooManyPairs => 13,
            Refusal::WeightRange(_) => 14,
            Refusal::DataRange(_) => 15,
            Refusal::SmoothRange(_) => 16,
            Refusal::LabelCostRange(_) => 17,
            Refusal::ConstantRange => 18,
            Refusal::TermNotRegular { .. } => 20,
            Refusal::NotRegular { .. } => 24,
            Refusal::LabelCostInSwap => 27,
            Refusal::NoSuchCourse => 28,
            Refusal::TableOfCount => 30,
            Refusal::NoSuchTable(_) => 31,
            Refusal::PairCostRange(_) => 32,
        }
    }

    /// The place that it tells, or 0.
    pub fn place(self) -> usize
        ensures { result ≡ told_place self }
    {
        match self {
            Refusal::NoSuchSite(place)
            | Refusal::NoSuchLabel(place)
            | Refusal::SameSite(place)
            | Refusal::WeightRange(place)
            | Refusal::DataRange(place)
            | Refusal::SmoothRange(place)
            | Refusal::LabelCostRange(place)
            | Refusal::NoSuchTable(place)
            | Refusal::PairCostRange(place) => place,
            Refusal::TermNotRegular { term, .. } => term,
            Refusal::NotRegular { pair, .. } => pair,
            _ => 0,
        }
    }

    /// The labels of the move that it tells: twice the same of an expansion, and 0 and 0 of no
    /// move.
    pub fn labels(self) -> (u32, u32)
        ensures { result ≡ labels_of self }
    {
        match self {
            Refusal::NotRegular { alpha, beta, .. } => match beta {
                Some(beta) => (alpha, beta),
                None => (alpha, alpha),
            },
            _ => (0, 0),
        }
    }

    /// The variable of a term of three that is fixed, and its value: 3 and 0 of all else.
    pub fn fixed_numbers(self) -> (u64, u64)
        ensures { result ≡ fixed_of self }
    {
        match self {
            Refusal::TermNotRegular { fixed, .. } => numbers(fixed),
            _ => (3, 0),
        }
    }
}

/// The variable that is fixed, and its value: 3 and 0 of none.
fn numbers(fixed: Option<Fixed>) -> (u64, u64)
    ensures { result ≡ fixed_numbers fixed }
{
    match fixed {
        Some(fixed) => (fixed.position as u64, if fixed.value { 1 } else { 0 }),
        None => (3, 0),
    }
}
