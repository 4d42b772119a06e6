//! Moves worked by hand.
use crate::random::{BYTES, is_right};
use crate::rows::expect;
use moves::Alone;

/// What is made: one move, or a run of at most so many cycles.
#[derive(Clone, Copy)]
enum Task {
    Expand(u32),
    Swap(u32, u32),
    Expansions(u32),
    Swaps(u32),
}

/// What is answered.
#[derive(Clone, Copy)]
enum Answer {
    /// The move keeps each label.
    Kept,
    /// The move changes a label.
    Changed,
    /// A move is not regular at the pair of this place. It is the expansion of this label.
    NotRegular(u32, u32),
    /// A label of the move is no label of the problem.
    NoSuchLabel,
    /// The run may make no further cycle, after so many.
    Stopped(u32),
    /// The run is settled, after so many cycles.
    Settled(u32),
}

/// A problem, what is made from a labelling of it, and what that comes to. Each number is a digit.
#[derive(Clone, Copy)]
struct Case {
    /// What each site costs, by its label.
    data: &'static [&'static [u32]],
    /// What two neighbours cost, by the label of the first and that of the second.
    smooth: &'static [&'static [u32]],
    /// Each two neighbours, and the weight of what they cost.
    pairs: &'static [&'static [u32]],
    /// The labels before.
    before: &'static [u32],
    task: Task,
    answer: Answer,
    /// The labels after.
    after: &'static [u32],
    /// The energy of the sites after, and that of the pairs, each below 100.
    data_energy: u32,
    smooth_energy: u32,
}

/// Two sites, each of which costs 3 with the label 0 and nothing with the label 1. A run of no
/// cycles tells the energy of the start.
const ALIKE: Case = Case {
    data: &[&[3, 0], &[3, 0]],
    smooth: &[&[0, 1], &[1, 0]],
    pairs: &[&[0, 1, 5]],
    before: &[0, 0],
    task: Task::Expansions(0),
    answer: Answer::Stopped(0),
    after: &[0, 0],
    data_energy: 6,
    smooth_energy: 0,
};

/// Both sites take the label 1.
const BOTH_CHANGE: Case = Case {
    task: Task::Expand(1),
    answer: Answer::Changed,
    after: &[1, 1],
    data_energy: 0,
    ..ALIKE
};

/// Two neighbours of three labels cost the square of their distance. The first site is best with
/// the label 0, the second with the label 2: to expand 0 would cost 9 in place of 4.
const APART: Case = Case {
    data: &[&[0, 9, 9], &[9, 9, 0]],
    smooth: &[&[0, 1, 4], &[1, 0, 1], &[4, 1, 0]],
    pairs: &[&[0, 1, 1]],
    before: &[0, 2],
    task: Task::Expand(0),
    answer: Answer::Kept,
    after: &[0, 2],
    data_energy: 0,
    smooth_energy: 4,
};

/// To expand the label 1 makes the term 4, 1, 1, 0: 4 + 0 is above 1 + 1.
const NOT_REGULAR: Case = Case {
    task: Task::Expand(1),
    answer: Answer::NotRegular(0, 1),
    ..APART
};

/// The same with a third site, which has no pair and is best with the label 0. A run expands 0
/// first, which changes that site alone. Then it is refused to expand 1.
const STOPPED: Case = Case {
    data: &[&[0, 9, 9], &[9, 9, 0], &[0, 5, 9]],
    before: &[0, 2, 1],
    task: Task::Expansions(9),
    after: &[0, 2, 0],
    ..NOT_REGULAR
};

/// There is no label 3 to expand.
const NO_LABEL: Case = Case {
    task: Task::Expand(3),
    answer: Answer::NoSuchLabel,
    ..APART
};

/// Nor one to swap with.
const NO_PARTNER: Case = Case {
    task: Task::Swap(0, 3),
    answer: Answer::NoSuchLabel,
    ..APART
};

/// The first site would cost 9 with the label 1, and the pair 1 in place of 4.
const FIRST_KEPT: Case = Case {
    task: Task::Swap(0, 1),
    ..APART
};

/// With one label for both sites one of them costs 9, and the pair nothing in place of 4.
const BOTH_KEPT: Case = Case {
    task: Task::Swap(0, 2),
    ..APART
};

/// The second site would cost 9 with the label 1, and the pair 1 in place of 4.
const SECOND_KEPT: Case = Case {
    task: Task::Swap(1, 2),
    ..APART
};

/// The label of the other site costs a site 3, which is less than the pair. Of the two least
/// labellings the swap takes that with the first label of its two.
const FIRST_LABEL: Case = Case {
    data: &[&[0, 9, 3], &[3, 9, 0]],
    task: Task::Swap(0, 2),
    answer: Answer::Changed,
    after: &[0, 0],
    data_energy: 3,
    smooth_energy: 0,
    ..APART
};

/// The same swap with the labels exchanged.
const SECOND_LABEL: Case = Case {
    task: Task::Swap(2, 0),
    after: &[2, 2],
    ..FIRST_LABEL
};

/// A run of swaps over a chain of four sites. It is settled after four cycles, where all have the
/// label 2.
const CHAIN_OF_SWAPS: Case = Case {
    data: &[&[8, 2, 1], &[3, 7, 4], &[3, 4, 6], &[9, 5, 3]],
    smooth: &[&[0, 1, 1], &[1, 0, 1], &[1, 1, 0]],
    pairs: &[&[0, 1, 3], &[1, 2, 3], &[2, 3, 2]],
    before: &[1, 2, 0, 0],
    task: Task::Swaps(9),
    answer: Answer::Settled(4),
    after: &[2, 2, 2, 2],
    data_energy: 14,
    smooth_energy: 0,
};

const CASES: &[Case] = &[
    ALIKE,
    BOTH_CHANGE,
    APART,
    NOT_REGULAR,
    STOPPED,
    NO_LABEL,
    NO_PARTNER,
    FIRST_KEPT,
    BOTH_KEPT,
    SECOND_KEPT,
    FIRST_LABEL,
    SECOND_LABEL,
    CHAIN_OF_SWAPS,
];

/// The labellings of the last run, in their order, and those of the run over three sites.
const CHAIN: &[&[u8]] = &[
    &[1, 2, 0, 0],
    &[1, 2, 1, 1],
    &[1, 0, 1, 1],
    &[2, 0, 1, 1],
    &[2, 0, 0, 1],
    &[2, 0, 0, 2],
    &[2, 2, 2, 2],
    &[0, 2, 1],
    &[0, 2, 0],
];

/// Of a task: which it is, the cycles, and the two labels, as a row of `random` has them.
fn task_codes(task: Task) -> [u32; 4] {
    match task {
        Task::Expand(alpha) => [0, 0, alpha, 0],
        Task::Swap(alpha, beta) => [1, 0, alpha, beta],
        Task::Expansions(cycles) => [2, cycles, 0, 0],
        Task::Swaps(cycles) => [3, cycles, 0, 0],
    }
}

/// Of an answer: which it is, and its number.
fn answer_codes(answer: Answer) -> [u32; 2] {
    match answer {
        Answer::Kept => [0, 0],
        Answer::Changed => [1, 0],
        Answer::NotRegular(pair, _) => [2, pair],
        Answer::NoSuchLabel => [3, 0],
        Answer::Stopped(cycles) => [0, cycles],
        Answer::Settled(cycles) => [1, cycles],
    }
}

/// Writes digits from a place on.
fn put(row: &mut [u8], from: usize, digits: &[u32]) {
    for (place, digit) in digits.iter().enumerate() {
        if let Some(byte) = row.get_mut(from.saturating_add(place)) {
            *byte = 48 + (*digit % 10) as u8;
        }
    }
}

/// Writes lines of digits, of which each has so many places.
fn put_lines(row: &mut [u8], from: usize, width: usize, lines: &[&[u32]]) {
    for (number, line) in lines.iter().enumerate() {
        put(row, from.saturating_add(number.saturating_mul(width)), line);
    }
}

/// How many lines there are, at most 9.
fn digit_of(lines: &[&[u32]]) -> u32 {
    lines.len().min(9) as u32
}

/// Writes how large a problem is, the task and the answer.
fn put_head(row: &mut [u8], case: &Case) {
    let [kind, cycles, label, beta] = task_codes(case.task);
    let [answer, number] = answer_codes(case.answer);
    let alpha = match case.answer {
        Answer::NotRegular(_, refused) => refused,
        _ => label,
    };
    put(
        row,
        0,
        &[
            digit_of(case.data),
            digit_of(case.smooth),
            digit_of(case.pairs),
        ],
    );
    put(row, 3, &[kind, cycles, answer, number, alpha, beta]);
}

/// The case as a row of `random`.
fn row_of(case: &Case) -> [u8; BYTES] {
    let mut row = [48; BYTES];
    put_head(&mut row, case);
    put_lines(&mut row, 9, 4, case.data);
    put_lines(&mut row, 33, 4, case.smooth);
    put(&mut row, 49, case.before);
    put(&mut row, 55, case.after);
    put_lines(&mut row, 61, 3, case.pairs);
    put(&mut row, 88, &[case.data_energy / 10, case.data_energy]);
    put(&mut row, 96, &[case.smooth_energy / 10, case.smooth_energy]);
    row
}

#[test]
fn moves_worked_by_hand(rt: HostRuntime) {
    for (place, case) in CASES.iter().enumerate() {
        expect(
            &rt,
            place,
            is_right(&rt, rt.alloc(), &row_of(case), CHAIN, &Alone),
        );
    }
}
