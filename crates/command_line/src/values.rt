//! The options of a subcommand, read from what `clap` matched.
ghost use Rattle.std.specs.Prelude.{◌≡◌, ℕ, ◌≤◌, ◌<◌, ◌^◌, Some, option_map, IfOk, IfErr, IfSome};
ghost use Rattle.std.specs.Prelude.{IfNone};
ghost use Rattle.clap.specs.Words.{first_of, found_of, rows_of};
ghost use Rattle.run_options.specs.declared.options.Neighbours.{Neighbours};
ghost use Rattle.command_line.specs.Options.{AreNames, AreWorkers, HasFlag, HasLabelCost};
ghost use Rattle.command_line.specs.Options.{HasNeighbours, HasNumber, HasValue, IsFirstBad};
ghost use Rattle.command_line.specs.Options.{IsFirstNone, IsOnlyBad, IsRestore, IsSegment};
ghost use Rattle.command_line.specs.Options.{IsShared, IsStereo, moves_option, smooth_of};
ghost use Rattle.command_line.specs.Task.{HasNo};

use crate::OptionName;
use crate::rules::MOST_BLOCKS;
use clap::ArgMatches;
use label_energies::Moves;
use label_field::{LABEL_LIMIT, WEIGHT_LIMIT};
use run_options::{
    CAP_LIMIT, CYCLE_LIMIT, LABEL_COST_LIMIT, MAXVAL_LIMIT, Neighbours, RestoreOptions,
    SegmentOptions, Shape, StereoOptions, TRUNC_LIMIT,
};
use worker_options::{Options, RING_LIMIT, ROUND_LIMIT, THREAD_LIMIT, TURN_LIMIT};

/// Why the options of a subcommand are not had.
#[derive(Clone, Copy)]
pub(crate) enum Unmet {
    /// The value of this option is no name that it takes.
    BadOption(OptionName),
    /// A number is out of its range, which `clap` has refused before.
    NoTask,
}

/// The options whose value is a name.
#[derive(Clone, Copy)]
struct Names {
    smooth: Shape,
    neighbours: Neighbours,
    moves: Moves,
}

/// The options that `restore` and `stereo` share.
#[derive(Clone, Copy)]
struct Shared {
    smooth: Shape,
    trunc: u32,
    weight: u32,
    neighbours: Neighbours,
    moves: Moves,
    cycles: u32,
    bound: bool,
}

/// The options of `restore`.
pub(crate) fn restore_in(matches: &ArgMatches<'_>) -> Result<RestoreOptions, Unmet>
    ensures options { IfOk result (IsRestore (rows_of (found_of matches.now))) }
    ensures unmet { IfErr result (HasNo (IsRestore (rows_of (found_of matches.now)))
        (IsFirstBad (rows_of (found_of matches.now)))) }
{
    let shared = match shared_in(matches) {
        Ok(shared) => shared,
        Err(unmet) => return Err(unmet),
    };
    Ok(RestoreOptions {
        smooth: shared.smooth,
        trunc: shared.trunc,
        weight: shared.weight,
        neighbours: shared.neighbours,
        moves: shared.moves,
        cycles: shared.cycles,
        label_cost: label_cost_in(matches),
        bound: shared.bound,
    })
}

// The options that `restore` and `stereo` share.
fn shared_in(matches: &ArgMatches<'_>) -> Result<Shared, Unmet>
    ensures options { IfOk result (IsShared (rows_of (found_of matches.now))) }
    ensures unmet { IfErr result (HasNo (IsShared (rows_of (found_of matches.now)))
        (IsFirstBad (rows_of (found_of matches.now)))) }
{
    let names = match names_in(matches) {
        Ok(names) => names,
        Err(option) => return Err(Unmet::BadOption(option)),
    };
    let Some(trunc) = number_in(matches, "trunc", 1, TRUNC_LIMIT) else {
        return Err(Unmet::NoTask);
    };
    let Some(weight) = number_in(matches, "weight", 0, WEIGHT_LIMIT) else {
        return Err(Unmet::NoTask);
    };
    let Some(cycles) = number_in(matches, "cycles", 0, CYCLE_LIMIT) else {
        return Err(Unmet::NoTask);
    };
    Ok(Shared {
        smooth: names.smooth,
        trunc,
        weight,
        neighbours: names.neighbours,
        moves: names.moves,
        cycles,
        bound: flag_in(matches, "bound"),
    })
}

/// The options of `stereo`.
pub(crate) fn stereo_in(matches: &ArgMatches<'_>) -> Result<StereoOptions, Unmet>
    ensures options { IfOk result (IsStereo (rows_of (found_of matches.now))) }
    ensures unmet { IfErr result (HasNo (IsStereo (rows_of (found_of matches.now)))
        (IsFirstBad (rows_of (found_of matches.now)))) }
{
    let shared = match shared_in(matches) {
        Ok(shared) => shared,
        Err(unmet) => return Err(unmet),
    };
    let Some(labels) = number_in(matches, "labels", 1, LABEL_LIMIT) else {
        return Err(Unmet::NoTask);
    };
    let Some(cap) = number_in(matches, "cap", 0, CAP_LIMIT) else {
        return Err(Unmet::NoTask);
    };
    Ok(StereoOptions {
        smooth: shared.smooth,
        trunc: shared.trunc,
        weight: shared.weight,
        neighbours: shared.neighbours,
        moves: shared.moves,
        cycles: shared.cycles,
        labels,
        cap,
        bound: shared.bound,
    })
}

/// The options of `segment`.
pub(crate) fn segment_in(matches: &ArgMatches<'_>) -> Result<SegmentOptions, Unmet>
    ensures options { IfOk result (IsSegment (rows_of (found_of matches.now))) }
    ensures unmet { IfErr result (HasNo (IsSegment (rows_of (found_of matches.now)))
        (IsOnlyBad (rows_of (found_of matches.now)))) }
{
    let Some(neighbours) = neighbours_in(matches) else {
        return Err(Unmet::BadOption(OptionName::Neighbours));
    };
    match segment_with(matches, neighbours) {
        Some(options) => Ok(options),
        None => Err(Unmet::NoTask),
    }
}

// The options of `segment` with these neighbours.
fn segment_with(matches: &ArgMatches<'_>, neighbours: Neighbours) -> Option<SegmentOptions>
    requires { HasNeighbours (rows_of (found_of matches.now)) neighbours }
    ensures options { IfSome result (IsSegment (rows_of (found_of matches.now))) }
    ensures none { IfNone result ((o : _) → ¬ IsSegment (rows_of (found_of matches.now)) o) }
{
    Some(SegmentOptions {
        low: number_in(matches, "low", 0, MAXVAL_LIMIT)?,
        high: number_in(matches, "high", 0, MAXVAL_LIMIT)?,
        strong: number_in(matches, "strong", 0, WEIGHT_LIMIT)?,
        weak: number_in(matches, "weak", 0, WEIGHT_LIMIT)?,
        edge: number_in(matches, "edge", 0, MAXVAL_LIMIT)?,
        neighbours,
        cycles: number_in(matches, "cycles", 0, CYCLE_LIMIT)?,
    })
}

/// The options of the workers, where threads are asked for.
pub(crate) fn workers_in(matches: &ArgMatches<'_>) -> Option<Options>
    ensures options { IfSome result (AreWorkers (rows_of (found_of matches.now))) }
    ensures none { IfNone result ((o : _) → ¬ AreWorkers (rows_of (found_of matches.now)) o) }
{
    Some(Options {
        threads: number_in(matches, "threads", 1, THREAD_LIMIT)?,
        blocks: number_in(matches, "blocks", 1, MOST_BLOCKS)?,
        ring: number_in(matches, "ring", 1, RING_LIMIT)?,
        turns: number_in(matches, "turns", 0, TURN_LIMIT)?,
        rounds: number_in(matches, "rounds", 0, ROUND_LIMIT)?,
    })
}

// The options whose value is a name, or the first that has another value.
fn names_in(matches: &ArgMatches<'_>) -> Result<Names, OptionName>
    ensures names { IfOk result (λ names. AreNames (rows_of (found_of matches.now))
        names.smooth names.neighbours names.moves) }
    ensures bad { IfErr result (IsFirstBad (rows_of (found_of matches.now))) }
{
    names_of(
        smooth_in(matches),
        neighbours_in(matches),
        moves_in(matches),
    )
}

// These names, or the first that is not there.
fn names_of(
    smooth: Option<Shape>,
    neighbours: Option<Neighbours>,
    moves: Option<Moves>,
) -> Result<Names, OptionName>
    ensures names { IfOk result (λ names. (smooth ≡ Some names.smooth)
        × (neighbours ≡ Some names.neighbours) × (moves ≡ Some names.moves)) }
    ensures lacks { IfErr result (IsFirstNone smooth neighbours moves) }
{
    let Some(smooth) = smooth else {
        return Err(OptionName::Smooth);
    };
    let Some(neighbours) = neighbours else {
        return Err(OptionName::Neighbours);
    };
    match moves {
        Some(moves) => Ok(Names {
            smooth,
            neighbours,
            moves,
        }),
        None => Err(OptionName::Moves),
    }
}

fn smooth_in(matches: &ArgMatches<'_>) -> Option<Shape>
    ensures { result ≡ smooth_of (rows_of (found_of matches.now)) }
{
    match text_in(matches, "smooth") {
        Some(name) => Shape::from_name(name),
        None => None,
    }
}

fn moves_in(matches: &ArgMatches<'_>) -> Option<Moves>
    ensures { result ≡ moves_option (rows_of (found_of matches.now)) }
{
    match text_in(matches, "moves") {
        Some(name) => Moves::from_name(name),
        None => None,
    }
}

fn neighbours_in(matches: &ArgMatches<'_>) -> Option<Neighbours>
    ensures neighbours { IfSome result (HasNeighbours (rows_of (found_of matches.now))) }
    ensures none { IfNone result ((neighbours : Neighbours) →
        ¬ HasNeighbours (rows_of (found_of matches.now)) neighbours) }
{
    match number_in(matches, "neighbours", 4, 8) {
        Some(4) => Some(Neighbours::Four),
        Some(8) => Some(Neighbours::Eight),
        _ => None,
    }
}

// What each label costs by itself, where it is asked for.
fn label_cost_in(matches: &ArgMatches<'_>) -> Option<u32>
    ensures { HasLabelCost (rows_of (found_of matches.now)) result }
{
    number_in(matches, "label-cost", 0, LABEL_COST_LIMIT)
}

/// Whether a flag is up.
pub(crate) fn flag_in(matches: &ArgMatches<'_>, name: &str) -> bool
    ensures { HasFlag (rows_of (found_of matches.now)) name.now result }
{
    match text_in(matches, name) {
        Some("true") => true,
        _ => false,
    }
}

// The value of an option, as text.
fn text_in<'a>(matches: &ArgMatches<'a>, name: &str) -> Option<&'a str>
    ensures { option_map (λ s. s.now) result ≡ first_of name.now (rows_of (found_of matches.now)) }
{
    matches.get_str(name)
}

// The value of an option, if it is a number from the least to the most.
fn number_in(matches: &ArgMatches<'_>, name: &str, least: u32, most: u32) -> Option<u32>
    ensures number { IfSome result
        (HasNumber (rows_of (found_of matches.now)) name.now least most) }
    ensures none { IfNone result ((n : ℕ) →
        ¬ HasNumber (rows_of (found_of matches.now)) name.now least most n) }
{
    within(value_in(matches, name)?, least, most)
}

// The number, if it is from the least to the most.
fn within(number: u32, least: u32, most: u32) -> Option<u32>
    ensures within { IfSome result (λ n. (n ≡ number) × (least ≤ number) × (number ≤ most)) }
    ensures none { IfNone result (least ≤ number → most < number) }
{
    if least <= number && number <= most {
        Some(number)
    } else {
        None
    }
}

// The value of an option, if it is a number.
fn value_in(matches: &ArgMatches<'_>, name: &str) -> Option<u32>
    ensures number { IfSome result (HasValue (rows_of (found_of matches.now)) name.now) }
    ensures none { IfNone result ((n : ℕ) → n < 2 ^ 32 →
        ¬ HasValue (rows_of (found_of matches.now)) name.now n) }
{
    matches.get_one(name)
}
