//! Messages that make the bound good (sequential reweighted message passing: Kolmogorov, PAMI
//! 2006).
//!
//! The sites are visited in their order, and then against it. At each site what its labels cost and
//! what messages add there is shared out among the pairs ahead, and each of them passes on what
//! reaches its other site. Nothing of this is promised: whatever the messages are, the bound that
//! they prove is one.
ghost use Rattle.std.specs.Prelude.{◌≡◌, ℕ, ◌+◌, ◌*◌, ◌^◌, ◌<◌, ◌≤◌, All, IfOk, IfSome, length};
ghost use Rattle.cost_store.specs.Posed.{IsPosed, FitsProblem};
ghost use Rattle.label_field.specs.Limits.{label_limit};
ghost use Rattle.label_field.specs.PairLists.{IsPair, IsWeightIn};
ghost use Rattle.message_bound.specs.PairTables.{ServesPairs};
ghost use Rattle.dual_bound.specs.Ends.{ArePairEnds};
ghost use Rattle.counting_sort.specs.Grouping.{start_of};

use crate::squares::spread_squares;
use cost_store::Problem;
use counting_sort::{Groups, group};
use label_field::{Labelling, Pair, Pairs};
use message_bound::{Form, PARTS, PairCosts, least};
use std::alloc::{AllocError, Global};

/// It is above every number of a message.
const ABOVE: u64 = 1 << 32;

/// Sweeps end once two of them raise the bound by less than one part in so many.
const PARTS_GAINED: u64 = 10_000;

/// The sites of the pairs, two of each pair.
fn sites_of(alloc: Global, pairs: &Pairs) -> Result<Vec<u32>, AllocError>
    ensures size { IfOk result (λ sites. length sites.items ≡ 2 * length pairs.now.list) }
    ensures within { IfOk result (λ sites. All (λ site. site < pairs.now.sites) sites.items) }
{
    let mut sites = Vec::with_capacity(alloc, 2 * pairs.len())?;
    for index in 0..pairs.len() {
        let pair = pairs.get(index);
        sites.push_reserved(pair.first);
        sites.push_reserved(pair.second);
    }
    Ok(sites)
}

/// The ends of the pairs by their sites, where end 2k is the first and end 2k + 1 the second of
/// pair k.
fn ends_of(alloc: Global, pairs: &Pairs) -> Result<Groups, AllocError>
    ensures { IfOk result (ArePairEnds pairs.now) }
{
    let sites = sites_of(alloc, pairs)?;
    group(alloc, pairs.sites() as usize, sites.as_slice())
}

/// The place in the list of the pair of an end of a site.
fn pair_index(pairs: &Pairs, ends: &Groups, site: u32, place: u32) -> usize
    requires ends { ArePairEnds pairs.now ends.now }
    requires site { site < pairs.now.sites }
    requires place { (start_of ends.now site ≤ place) × (place < start_of ends.now (site + 1)) }
    ensures { result < length pairs.now.list }
{
    ends.places[place as usize] as usize / 2
}

/// Whether the other site of a pair comes later in the order of the visits.
fn is_ahead(pair: Pair, site: u32, forward: bool) -> bool {
    let other = if pair.first == site {
        pair.second
    } else {
        pair.first
    };
    (site < other) == forward
}

/// What each label costs a site, in parts.
fn load_costs<F: Fn(u32, u32) -> i64 + Sync, V: Fn(u32, u32) -> i64 + Sync>(
    problem: &Problem<F, V>,
    site: u32,
    sums: &mut [u64],
)
    requires posed { IsPosed F.Fn V.Fn problem.now }
    requires site { site < problem.now.pairs.sites }
    requires sums { length sums.old ≡ problem.now.data_cost.labels }
{
    for label in 0..problem.data_cost.labels {
        sums[label as usize] = PARTS * problem.site_cost(site, label).unsigned_abs();
    }
}

/// Adds a message.
fn add_message(sums: &mut [u64], message: &[u32])
    requires { length message.now ≡ length sums.old }
{
    for label in 0..message.len() {
        sums[label] = sums[label].wrapping_add(u64::from(message[label]));
    }
}

/// Adds the messages of all pairs of a site, and tells among how many pairs the sums are to be
/// shared: 0 where no pair is ahead.
fn gather(
    pairs: &Pairs,
    ends: &Groups,
    messages: &[u32],
    sums: &mut [u64],
    site: u32,
    forward: bool,
) -> u64
    requires ends { ArePairEnds pairs.now ends.now }
    requires site { site < pairs.now.sites }
    requires messages { length messages.now ≡ length pairs.now.list * length sums.old }
{
    let labels = sums.len();
    let mut ahead = 0u64;
    let mut behind = 0u64;
    for place in ends.starts[site as usize]..ends.starts[site as usize + 1] {
        let index = pair_index(pairs, ends, site, place);
        let from = index * labels;
        add_message(sums, &messages[from..from + labels]);
        if is_ahead(pairs.get(index), site, forward) {
            ahead = ahead.wrapping_add(1);
        } else {
            behind = behind.wrapping_add(1);
        }
    }
    if ahead == 0 { 0 } else { ahead.max(behind) }
}

/// How many bits stand for one of so many shares, where they are 1, 2 or 4.
fn bits_of(ways: u64) -> Option<u32>
    ensures { IfSome result (λ bits. bits < 64) }
{
    match ways {
        1 => Some(0),
        2 => Some(1),
        4 => Some(2),
        _ => None,
    }
}

/// One of so many equal shares of what the sums are above the least of them.
fn share(sums: &mut [u64], least: u64, ways: u64)
    requires { 0 < ways }
{
    match bits_of(ways) {
        Some(bits) => {
            for label in 0..sums.len() {
                sums[label] = sums[label].saturating_sub(least) >> bits;
            }
        }
        None => {
            for label in 0..sums.len() {
                sums[label] = sums[label].saturating_sub(least) / ways;
            }
        }
    }
}

/// What a pair passes on, before its own cost: its share less the message that came from its other
/// site. Here it is above 0. The answer is the least.
fn fill_own(sums: &[u64], message: &[u32], own: &mut [u64]) -> u64
    requires message { length message.now ≡ length sums.now }
    requires own { length own.old ≡ length sums.now }
{
    let mut least = u64::MAX;
    for label in 0..sums.len() {
        let number = sums[label].wrapping_add(ABOVE - u64::from(message[label]));
        own[label] = number;
        least = least.min(number);
    }
    least
}

/// The least that reaches each label from any, by linear costs of this step.
fn flatten(numbers: &mut [u64], step: u64) {
    let mut reach = u64::MAX - step;
    for label in 0..numbers.len() {
        reach = numbers[label].min(reach.wrapping_add(step));
        numbers[label] = reach;
    }
    for label in (0..numbers.len()).rev() {
        reach = numbers[label].min(reach.wrapping_add(step));
        numbers[label] = reach;
    }
}

/// Lowers each number to what reaches it from one label.
fn reach_from(row: &[u32], weight: u64, own: u64, out: &mut [u64])
    requires { length out.old ≡ length row.now }
{
    for label in 0..row.len() {
        let reach = own.wrapping_add(weight.wrapping_mul(u64::from(row[label])));
        if reach < out[label] {
            out[label] = reach;
        }
    }
}

/// The least that reaches one label from any.
fn least_reach(row: &[u32], weight: u64, own: &[u64]) -> u64
    requires { length own.now ≡ length row.now }
{
    let mut least = u64::MAX;
    for label in 0..row.len() {
        let reach = own[label].wrapping_add(weight.wrapping_mul(u64::from(row[label])));
        if reach < least {
            least = reach;
        }
    }
    least
}

/// The least that reaches each label from any, by a table of costs: from the labels of the first
/// site those of the second, or the other way.
fn spread(costs: &[u32], weight: u64, own: &[u64], out: &mut [u64], from_first: bool)
    requires costs { length costs.now ≡ length own.now * length own.now }
    requires out { length out.old ≡ length own.now }
{
    let labels = own.len();
    if from_first {
        out.fill(u64::MAX);
    }
    for first in 0..labels {
        let from = first * labels;
        let row = &costs[from..from + labels];
        if from_first {
            reach_from(row, weight, own[first], out);
        } else {
            out[first] = least_reach(row, weight, own);
        }
    }
}

/// Writes numbers as a message: by how much they are above the least, and never more than `most`.
fn store(numbers: &[u64], least: u64, most: u64, message: &mut [u32])
    requires { length message.old ≡ length numbers.now }
{
    let most = most.min(ABOVE - 1);
    for label in 0..numbers.len() {
        message[label] = numbers[label].saturating_sub(least).min(most) as u32;
    }
}

/// Passes on what reaches the other site of a pair, and tells how much of it reaches each label
/// there. `own` and `out` are room for one number a label.
fn send(
    costs: &[u32],
    form: Form,
    sums: &[u64],
    own: &mut [u64],
    out: &mut [u64],
    message: &mut [u32],
    weight: u32,
    from_first: bool,
) -> u64
    requires few { length sums.now < 2 ^ 32 }
    requires costs { length costs.now ≡ length sums.now * length sums.now }
    requires own { length own.old ≡ length sums.now }
    requires out { length out.old ≡ length sums.now }
    requires message { length message.old ≡ length sums.now }
{
    let lowest = fill_own(sums, message, own);
    let weight = u64::from(weight);
    let lowest = match form {
        Form::Linear(slope) => {
            let step = weight.wrapping_mul(u64::from(slope.step));
            let most = weight.wrapping_mul(u64::from(slope.most));
            if step < most {
                flatten(own, step);
            }
            store(own, lowest, most, message);
            lowest
        }
        Form::Square(slope) => {
            let step = weight.wrapping_mul(u64::from(slope.step));
            let most = weight.wrapping_mul(u64::from(slope.most));
            spread_squares(own, lowest, step, most, out, message);
            store(out, lowest, most, message);
            lowest
        }
        Form::Table => {
            spread(costs, weight, own, out, from_first);
            let reached = least(out);
            store(out, reached, ABOVE, message);
            reached
        }
    };
    lowest.wrapping_sub(ABOVE)
}

/// Passes on what reaches the other site of a pair of this weight, or of this number, and tells how
/// much of it reaches each label there.
fn send_pair<F: Fn(u32, u32) -> i64 + Sync, V: Fn(u32, u32) -> i64 + Sync>(
    problem: &Problem<F, V>,
    costs: &mut PairCosts,
    sums: &[u64],
    own: &mut [u64],
    out: &mut [u64],
    message: &mut [u32],
    weight: u32,
    from_first: bool,
) -> u64
    requires posed { IsPosed F.Fn V.Fn problem.now }
    requires serves { ServesPairs F.Fn V.Fn problem.now costs.old }
    requires weight { IsWeightIn problem.now.pairs weight }
    requires sums { length sums.now ≡ problem.now.data_cost.labels }
    requires few { length sums.now < 2 ^ 32 }
    requires own { length own.old ≡ length sums.now }
    requires out { length out.old ≡ length sums.now }
    requires message { length message.old ≡ length sums.now }
    ensures { ServesPairs F.Fn V.Fn problem.now costs.new }
{
    let times = costs.load(problem, weight);
    let form = costs.form();
    let entries = costs.as_slice();
    send(entries, form, sums, own, out, message, times, from_first)
}

/// Passes on what reaches the sites ahead, and tells how much of it reaches each label there.
fn send_ahead<F: Fn(u32, u32) -> i64 + Sync, V: Fn(u32, u32) -> i64 + Sync>(
    problem: &Problem<F, V>,
    ends: &Groups,
    costs: &mut PairCosts,
    messages: &mut [u32],
    sums: &[u64],
    own: &mut [u64],
    out: &mut [u64],
    site: u32,
    forward: bool,
) -> u64
    requires posed { IsPosed F.Fn V.Fn problem.now }
    requires ends { ArePairEnds problem.now.pairs ends.now }
    requires site { site < problem.now.pairs.sites }
    requires serves { ServesPairs F.Fn V.Fn problem.now costs.old }
    requires sums { length sums.now ≡ problem.now.data_cost.labels }
    requires few { length sums.now < 2 ^ 32 }
    requires messages { length messages.old ≡ length problem.now.pairs.list * length sums.now }
    requires own { length own.old ≡ length sums.now }
    requires out { length out.old ≡ length sums.now }
    ensures { ServesPairs F.Fn V.Fn problem.now costs.new }
{
    let pairs = &problem.pairs;
    let labels = sums.len();
    let mut reached = 0u64;
    for place in ends.starts[site as usize]..ends.starts[site as usize + 1] {
        let index = pair_index(pairs, ends, site, place);
        let pair = pairs.get(index);
        if is_ahead(pair, site, forward) {
            let from = index * labels;
            let message = &mut messages[from..from + labels];
            let from_first = pair.first == site;
            let least = send_pair(
                problem,
                costs,
                sums,
                own,
                out,
                message,
                pair.weight,
                from_first,
            );
            reached = reached.wrapping_add(least);
        }
    }
    reached
}

/// Visits the sites in their order, or against it, and tells what bound the messages are at then,
/// in parts. It decides only when the sweeps end.
fn sweep<F: Fn(u32, u32) -> i64 + Sync, V: Fn(u32, u32) -> i64 + Sync>(
    problem: &Problem<F, V>,
    ends: &Groups,
    costs: &mut PairCosts,
    messages: &mut [u32],
    sums: &mut [u64],
    own: &mut [u64],
    out: &mut [u64],
    forward: bool,
) -> u64
    requires posed { IsPosed F.Fn V.Fn problem.now }
    requires ends { ArePairEnds problem.now.pairs ends.now }
    requires serves { ServesPairs F.Fn V.Fn problem.now costs.old }
    requires sums { length sums.old ≡ problem.now.data_cost.labels }
    requires few { length sums.old < 2 ^ 32 }
    requires messages { length messages.old ≡ length problem.now.pairs.list * length sums.old }
    requires own { length own.old ≡ length sums.old }
    requires out { length out.old ≡ length sums.old }
    ensures { ServesPairs F.Fn V.Fn problem.now costs.new }
{
    let sites = problem.pairs.sites();
    let mut bound = 0u64;
    for step in 0..sites {
        let site = if forward { step } else { sites - 1 - step };
        load_costs(problem, site, sums);
        let ways = gather(&problem.pairs, ends, messages, sums, site, forward);
        let least = least(sums);
        bound = bound.wrapping_add(least);
        if ways > 0 {
            share(sums, least, ways);
            let reached = send_ahead(
                problem, ends, costs, messages, sums, own, out, site, forward,
            );
            bound = bound.wrapping_add(reached);
        }
    }
    bound
}

/// Whether a bound is not above an earlier one by a part in `PARTS_GAINED`.
fn gains_little(before: u64, bound: u64) -> bool {
    bound.saturating_sub(before) < bound / PARTS_GAINED || bound <= before
}

/// Adds what each label of one site costs a pair whose other site has this label. `from_first`
/// tells that it is the first site whose labels are meant.
fn add_costs(sums: &mut [u64], costs: &[u32], weight: u64, label: usize, from_first: bool)
    requires costs { length costs.now ≡ length sums.old * length sums.old }
    requires label { label < length sums.old }
{
    let labels = sums.len();
    for own in 0..labels {
        let place = if from_first {
            own * labels + label
        } else {
            label * labels + own
        };
        let cost = weight.wrapping_mul(u64::from(costs[place]));
        sums[own] = sums[own].wrapping_add(cost);
    }
}

/// The label of the least sum, the first of these.
fn least_label(sums: &[u64]) -> u32
    requires { (0 < length sums.now) × (length sums.now ≤ label_limit) }
    ensures { result < length sums.now }
{
    let mut best = 0;
    for label in 1..sums.len() {
        if sums[label] < sums[best] {
            best = label;
        }
    }
    best as u32
}

/// Adds what a pair says of the labels of one of its sites: what the label of the other costs with
/// each, where that site is above and has its label, else the message that came from there.
fn add_pair<F: Fn(u32, u32) -> i64 + Sync, V: Fn(u32, u32) -> i64 + Sync>(
    problem: &Problem<F, V>,
    costs: &mut PairCosts,
    sums: &mut [u64],
    message: &[u32],
    labelling: &Labelling,
    pair: Pair,
    site: u32,
)
    requires posed { IsPosed F.Fn V.Fn problem.now }
    requires serves { ServesPairs F.Fn V.Fn problem.now costs.old }
    requires weight { IsWeightIn problem.now.pairs pair.weight }
    requires sums { length sums.old ≡ problem.now.data_cost.labels }
    requires message { length message.now ≡ length sums.old }
    requires fits { FitsProblem problem.now labelling.now }
    requires pair { IsPair problem.now.pairs.sites pair }
    ensures { ServesPairs F.Fn V.Fn problem.now costs.new }
{
    let from_first = pair.first == site;
    let other = if from_first { pair.second } else { pair.first };
    if site < other {
        let label = labelling.as_slice()[other as usize] as usize;
        let times = costs.load(problem, pair.weight);
        add_costs(sums, costs.as_slice(), u64::from(times), label, from_first);
    } else {
        add_message(sums, message);
    }
}

/// The label that the messages and the labels of the sites above tell of a site.
fn read_label<F: Fn(u32, u32) -> i64 + Sync, V: Fn(u32, u32) -> i64 + Sync>(
    problem: &Problem<F, V>,
    ends: &Groups,
    costs: &mut PairCosts,
    messages: &[u32],
    sums: &mut [u64],
    labelling: &Labelling,
    site: u32,
) -> u32
    requires posed { IsPosed F.Fn V.Fn problem.now }
    requires ends { ArePairEnds problem.now.pairs ends.now }
    requires site { site < problem.now.pairs.sites }
    requires serves { ServesPairs F.Fn V.Fn problem.now costs.old }
    requires sums { length sums.old ≡ problem.now.data_cost.labels }
    requires few { (0 < length sums.old) × (length sums.old ≤ label_limit) }
    requires messages { length messages.now ≡ length problem.now.pairs.list * length sums.old }
    requires fits { FitsProblem problem.now labelling.now }
    ensures label { result < problem.now.data_cost.labels }
    ensures serves { ServesPairs F.Fn V.Fn problem.now costs.new }
{
    load_costs(problem, site, sums);
    let labels = sums.len();
    for place in ends.starts[site as usize]..ends.starts[site as usize + 1] {
        let index = pair_index(&problem.pairs, ends, site, place);
        let from = index * labels;
        let message = &messages[from..from + labels];
        let pair = problem.pairs.get(index);
        add_pair(problem, costs, sums, message, labelling, pair, site);
    }
    least_label(sums)
}

/// Gives each site the label that the messages tell, from the last site to the first: the messages
/// of a sweep in the order of the sites.
fn read_labels<F: Fn(u32, u32) -> i64 + Sync, V: Fn(u32, u32) -> i64 + Sync>(
    problem: &Problem<F, V>,
    ends: &Groups,
    costs: &mut PairCosts,
    messages: &[u32],
    sums: &mut [u64],
    labelling: &mut Labelling,
)
    requires posed { IsPosed F.Fn V.Fn problem.now }
    requires ends { ArePairEnds problem.now.pairs ends.now }
    requires serves { ServesPairs F.Fn V.Fn problem.now costs.old }
    requires sums { length sums.old ≡ problem.now.data_cost.labels }
    requires few { (0 < length sums.old) × (length sums.old ≤ label_limit) }
    requires messages { length messages.now ≡ length problem.now.pairs.list * length sums.old }
    requires fits { FitsProblem problem.now labelling.old }
    ensures fits { FitsProblem problem.now labelling.new }
    ensures serves { ServesPairs F.Fn V.Fn problem.now costs.new }
{
    for site in (0..problem.pairs.sites()).rev() {
        let label = read_label(problem, ends, costs, messages, sums, labelling, site);
        let _ = labelling.set_label(site, label);
    }
}

/// Turns the messages that came to the first site of their pair last, that of a pair whose first
/// site is above its second, to the second.
fn turn<F: Fn(u32, u32) -> i64 + Sync, V: Fn(u32, u32) -> i64 + Sync>(
    problem: &Problem<F, V>,
    costs: &mut PairCosts,
    messages: &mut [u32],
    sums: &mut [u64],
    own: &mut [u64],
    out: &mut [u64],
)
    requires posed { IsPosed F.Fn V.Fn problem.now }
    requires serves { ServesPairs F.Fn V.Fn problem.now costs.old }
    requires sums { length sums.old ≡ problem.now.data_cost.labels }
    requires few { length sums.old < 2 ^ 32 }
    requires messages { length messages.old ≡ length problem.now.pairs.list * length sums.old }
    requires own { length own.old ≡ length sums.old }
    requires out { length out.old ≡ length sums.old }
{
    let labels = sums.len();
    sums.fill(0);
    for index in 0..problem.pairs.len() {
        let pair = problem.pairs.get(index);
        if pair.second < pair.first {
            let from = index * labels;
            let message = &mut messages[from..from + labels];
            let _ = send_pair(problem, costs, sums, own, out, message, pair.weight, true);
        }
    }
}

/// Messages after so many sweeps at most, the last of them in the order of the sites: of each pair
/// what it adds at the labels of its second site. The labelling gets the labels that they tell. It
/// takes 4 bytes for each label of each pair.
pub(crate) fn messages_after<F: Fn(u32, u32) -> i64 + Sync, V: Fn(u32, u32) -> i64 + Sync>(
    alloc: Global,
    problem: &Problem<F, V>,
    labelling: &mut Labelling,
    passes: u32,
) -> Result<Vec<u32>, AllocError>
    requires posed { IsPosed F.Fn V.Fn problem.now }
    requires fits { FitsProblem problem.now labelling.old }
    ensures size { IfOk result (λ messages. length messages.items
        ≡ length problem.now.pairs.list * problem.now.data_cost.labels) }
    ensures fits { FitsProblem problem.now labelling.new }
{
    let labels = labelling.labels() as usize;
    let ends = ends_of(alloc, &problem.pairs)?;
    let mut costs = PairCosts::new(alloc, problem)?;
    let mut messages = vec![in alloc; 0u32; problem.pairs.len() * labels]?;
    let mut sums = vec![in alloc; 0u64; labels]?;
    let mut own = vec![in alloc; 0u64; labels]?;
    let mut out = vec![in alloc; 0u64; labels]?;
    let mut before = 0u64;
    for pass in 0..passes {
        let forward = (passes - pass) % 2 == 1;
        let bound = sweep(
            problem,
            &ends,
            &mut costs,
            messages.as_mut_slice(),
            sums.as_mut_slice(),
            own.as_mut_slice(),
            out.as_mut_slice(),
            forward,
        );
        if forward && gains_little(before, bound) {
            break;
        }
        before = bound;
    }
    read_labels(
        problem,
        &ends,
        &mut costs,
        messages.as_slice(),
        sums.as_mut_slice(),
        labelling,
    );
    turn(
        problem,
        &mut costs,
        messages.as_mut_slice(),
        sums.as_mut_slice(),
        own.as_mut_slice(),
        out.as_mut_slice(),
    );
    Ok(messages)
}
