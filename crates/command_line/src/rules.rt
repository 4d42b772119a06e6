//! The options of the commands, as `clap` is told of them.
ghost use Rattle.std.specs.Prelude.{◌≡◌, false, IfOk};
ghost use Rattle.clap.specs.Words.{rule_of};
ghost use Rattle.command_line.specs.Rules.{Adds, worker_rules};
ghost use Rattle.command_line.specs.Tables.{rule_for, rules_for, with_range};

use crate::help;
use block_net::BLOCK_LIMIT;
use clap::builder::ValueParser;
use clap::{Arg, ArgAction, Command};
use label_field::{LABEL_LIMIT, WEIGHT_LIMIT};
use run_options::{CAP_LIMIT, CYCLE_LIMIT, LABEL_COST_LIMIT, MAXVAL_LIMIT, TRUNC_LIMIT};
use std::alloc::{AllocError, Global};
use worker_options::{RING_LIMIT, ROUND_LIMIT, THREAD_LIMIT, TURN_LIMIT};

/// What the value of an option is.
pub(crate) enum Value {
    /// Any text, or else this one.
    Text(&'static str),
    /// A number from the first to the second, or else this one.
    Number(u32, u32, &'static str),
    /// A number from the first to the second, which has to be given.
    Required(u32, u32),
    /// A number from the first to the second, or none.
    Optional(u32, u32),
    /// No value: the option stands there or not.
    Flag,
}

/// The option `--name`, which takes one value or, a flag, none.
pub(crate) struct Choice {
    pub(crate) name: &'static str,
    pub(crate) value: Value,
    pub(crate) help: &'static str,
}

const SMOOTH: Choice = Choice {
    name: "smooth",
    value: Value::Text("potts"),
    help: help::SMOOTH,
};

const TRUNC: Choice = Choice {
    name: "trunc",
    value: Value::Number(1, TRUNC_LIMIT, "1"),
    help: help::TRUNC,
};

const WEIGHT: Choice = Choice {
    name: "weight",
    value: Value::Number(0, WEIGHT_LIMIT, "1"),
    help: help::WEIGHT,
};

const NEIGHBOURS: Choice = Choice {
    name: "neighbours",
    value: Value::Number(4, 8, "4"),
    help: help::NEIGHBOURS,
};

const MOVES: Choice = Choice {
    name: "moves",
    value: Value::Text("expansion"),
    help: help::MOVES,
};

const CYCLES: Choice = Choice {
    name: "cycles",
    value: Value::Number(0, CYCLE_LIMIT, "100"),
    help: help::CYCLES,
};

const LABEL_COST: Choice = Choice {
    name: "label-cost",
    value: Value::Optional(0, LABEL_COST_LIMIT),
    help: help::LABEL_COST,
};

const BOUND: Choice = Choice {
    name: "bound",
    value: Value::Flag,
    help: help::BOUND,
};

const LABELS: Choice = Choice {
    name: "labels",
    value: Value::Number(1, LABEL_LIMIT, "16"),
    help: help::LABELS,
};

const CAP: Choice = Choice {
    name: "cap",
    value: Value::Number(0, CAP_LIMIT, "20"),
    help: help::CAP,
};

const LOW: Choice = Choice {
    name: "low",
    value: Value::Required(0, MAXVAL_LIMIT),
    help: help::LOW,
};

const HIGH: Choice = Choice {
    name: "high",
    value: Value::Required(0, MAXVAL_LIMIT),
    help: help::HIGH,
};

const STRONG: Choice = Choice {
    name: "strong",
    value: Value::Number(0, WEIGHT_LIMIT, "20"),
    help: help::STRONG,
};

const WEAK: Choice = Choice {
    name: "weak",
    value: Value::Number(0, WEIGHT_LIMIT, "5"),
    help: help::WEAK,
};

const EDGE: Choice = Choice {
    name: "edge",
    value: Value::Number(0, MAXVAL_LIMIT, "5"),
    help: help::EDGE,
};

const THREADS: Choice = Choice {
    name: "threads",
    value: Value::Optional(1, THREAD_LIMIT),
    help: help::THREADS,
};

const BLOCKS: Choice = Choice {
    name: "blocks",
    value: Value::Number(1, MOST_BLOCKS, "16"),
    help: help::BLOCKS,
};

const RING: Choice = Choice {
    name: "ring",
    value: Value::Number(1, RING_LIMIT, "64"),
    help: help::RING,
};

const TURNS: Choice = Choice {
    name: "turns",
    value: Value::Number(0, TURN_LIMIT, "4096"),
    help: help::TURNS,
};

const ROUNDS: Choice = Choice {
    name: "rounds",
    value: Value::Number(0, ROUND_LIMIT, "64"),
    help: help::ROUNDS,
};

/// The options of the workers, which each command has after its own.
const WORKERS: &[Choice] = &[THREADS, BLOCKS, RING, TURNS, ROUNDS];

/// The most blocks.
pub(crate) const MOST_BLOCKS: u32 = BLOCK_LIMIT as u32;

/// The options of `restore`.
pub(crate) const RESTORE: &[Choice] = &[
    SMOOTH, TRUNC, WEIGHT, NEIGHBOURS, MOVES, CYCLES, LABEL_COST, BOUND,
];

/// The options of `stereo`.
pub(crate) const STEREO: &[Choice] = &[
    SMOOTH, TRUNC, WEIGHT, NEIGHBOURS, MOVES, CYCLES, LABELS, CAP, BOUND,
];

/// The options of `segment`.
pub(crate) const SEGMENT: &[Choice] = &[LOW, HIGH, STRONG, WEAK, EDGE, NEIGHBOURS, CYCLES];

/// The options of `label`.
pub(crate) const LABEL: &[Choice] = &[BOUND];

/// The options of the workers.
pub(crate) fn worker_choices() -> &'static [Choice]
    ensures { rules_for result.now ≡ worker_rules }
{
    WORKERS
}

/// Adds the options to the command.
pub(crate) fn with_options<'a>(
    alloc: Global,
    command: Command<'a>,
    choices: &[Choice],
) -> Result<Command<'a>, AllocError>
    ensures { IfOk result (Adds command.entry (rules_for choices.now)) }
{
    let mut command = command;
    for choice in choices {
        command = command.arg(option_of(alloc, choice))?;
    }
    Ok(command)
}

fn option_of<'a>(alloc: Global, choice: &Choice) -> Arg<'a>
    ensures rule { rule_of result ≡ rule_for choice.now }
    ensures own { result.global ≡ false }
{
    let option = Arg::new(alloc, choice.name)
        .long(choice.name)
        .help(choice.help);
    match choice.value {
        Value::Text(default) => option.value_name("NAME").default_value(default),
        Value::Number(least, most, default) => with_number(option, least, most).default_value(
            default,
        ),
        Value::Required(least, most) => with_number(option, least, most).required(true),
        Value::Optional(least, most) => with_number(option, least, most),
        Value::Flag => option.action(ArgAction::SetTrue),
    }
}

// The option has a number as its value.
fn with_number<'a>(option: Arg<'a>, least: u32, most: u32) -> Arg<'a>
    ensures rule { rule_of result ≡ with_range (rule_of option.entry) least most }
    ensures own { result.global ≡ option.entry.global }
{
    option
        .value_name("N")
        .value_parser(ValueParser::Signed(i64::from(least), i64::from(most)))
}
