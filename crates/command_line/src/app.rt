//! The commands, as `clap` knows them.
ghost use Rattle.std.specs.Prelude.{◌≡◌, IfOk, codes};
ghost use Rattle.clap.specs.Words.{new_app};
ghost use Rattle.command_line.specs.App.{Makes, gco_app, requiring_subcommand};
ghost use Rattle.command_line.specs.Tables.{AddsChapters, app_for, with_chapters};

use crate::help;
use crate::help::After;
use crate::rules::{Choice, LABEL, RESTORE, SEGMENT, STEREO, with_options, worker_choices};
use clap::Command;
use std::alloc::{AllocError, Global};

/// A command under `gco`.
pub(crate) struct Chapter {
    pub(crate) name: &'static str,
    pub(crate) about: &'static str,
    /// What help says after the options.
    pub(crate) after: After,
    pub(crate) options: &'static [Choice],
}

/// The commands, in the order in which help lists them.
const CHAPTERS: &[Chapter] = &[
    Chapter {
        name: "restore",
        about: help::RESTORE,
        after: After::Restore,
        options: RESTORE,
    },
    Chapter {
        name: "stereo",
        about: help::STEREO,
        after: After::Stereo,
        options: STEREO,
    },
    Chapter {
        name: "segment",
        about: help::SEGMENT,
        after: After::Segment,
        options: SEGMENT,
    },
    Chapter {
        name: "energy",
        about: help::ENERGY,
        after: After::Energy,
        options: &[],
    },
    Chapter {
        name: "label",
        about: help::LABEL,
        after: After::Label,
        options: LABEL,
    },
];

/// The whole command line: a subcommand is required, and each command takes `--help`.
pub fn gco_command<'a>(alloc: Global) -> Result<Command<'a>, AllocError>
    ensures { IfOk result (Makes gco_app) }
{
    with_chapters(alloc, top_command(alloc), chapters())
}

// The commands, which make the command line whole.
fn chapters() -> &'static [Chapter]
    ensures { with_chapters (requiring_subcommand (new_app (codes "gco"))) result.now ≡ gco_app }
{
    CHAPTERS
}

// The command line without its commands.
fn top_command<'a>(alloc: Global) -> Command<'a>
    ensures { Makes (requiring_subcommand (new_app (codes "gco"))) result }
{
    Command::new(alloc, "gco")
        .about(help::GCO)
        .after_help(help::GCO_AFTER)
        .subcommand_required(true)
}

// Adds the commands.
fn with_chapters<'a>(
    alloc: Global,
    command: Command<'a>,
    chapters: &[Chapter],
) -> Result<Command<'a>, AllocError>
    ensures { IfOk result (AddsChapters command.entry chapters.now) }
{
    let mut command = command;
    for chapter in chapters {
        let part = chapter_command(alloc, chapter)?;
        command = command.subcommand(part)?;
    }
    Ok(command)
}

fn chapter_command<'a>(alloc: Global, chapter: &Chapter) -> Result<Command<'a>, AllocError>
    ensures { IfOk result (Makes (app_for chapter.now)) }
{
    let command = Command::new(alloc, chapter.name)
        .about(chapter.about)
        .after_help(chapter.after.text());
    let command = with_options(alloc, command, chapter.options)?;
    with_options(alloc, command, worker_choices())
}
