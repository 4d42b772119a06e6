//! From the words to the task.
ghost use Rattle.std.specs.Prelude.{◌≡◌, ◌<◌, Some, None, OnOk, IfOk, IfErr, IsSomeAnd};
ghost use Rattle.std.specs.Prelude.{MatchOption, length, map, string_bytes};
ghost use Rattle.clap.specs.Words.{found_of, rows_of, subcommand_of, subcommand_rows_of};
ghost use Rattle.command_line.specs.App.{gco_app};
ghost use Rattle.command_line.specs.Task.{Asks, FitsRequest, HasNo, HasText, AreWordsAccepted};
ghost use Rattle.command_line.specs.Task.{IsBadOptionOf, IsNoTaskFor, IsNoTaskOf, IsPictureOf};
ghost use Rattle.command_line.specs.Task.{IsRequestOf, IsTaskOf};

use crate::app::gco_command;
use crate::values::{Unmet, flag_in, restore_in, segment_in, stereo_in, workers_in};
use crate::{NoTask, PictureOptions, Request, Task, help};
use clap::ArgMatches;
use clap::error::ErrorKind;
use std::alloc::{AllocError, Global};
use std::convert::AsStr;
use std::string::ToString;

/// The task that the words ask for, and the workers that are to do it. The first word is the
/// program's name.
///
/// The words are read by `clap`: a subcommand is required, and each command takes `--help`. Each
/// option takes the next word as its value, and a number out of its range is refused by `clap`; a
/// name that is not listed is the answer `BadOption`, of the first such option in the order
/// `smooth`, `neighbours`, `moves`. Of `help` in the place of a subcommand the answer is `Help` or
/// `Refused`, or memory: which of them follows from the word after it is not said. What is told is
/// not empty.
pub fn parse<S: AsStr>(alloc: Global, words: &[S]) -> Result<Request, NoTask>
    ensures asked { IfOk result (Asks (map S.text words.now)) }
    ensures fits { IfOk result FitsRequest }
    ensures refused { IfErr result (IsNoTaskFor (map S.text words.now)) }
    ensures told { IfErr result HasText }
{
    let matches = matches_of(alloc, words)?;
    match entered_request(&matches) {
        Ok(request) => Ok(request),
        Err(Unmet::BadOption(option)) => Err(NoTask::BadOption(option)),
        Err(Unmet::NoTask) => {
            Err(NoTask::Refused(String::from_str(alloc, "error: no such command\n")?))
        }
    }
}

fn matches_of<'a, S: AsStr>(alloc: Global, words: &'a [S]) -> Result<ArgMatches<'a>, NoTask>
    ensures accepted { OnOk result (AreWordsAccepted (map S.text words.entry.now)) }
    ensures matches { IfOk result (λ m. subcommand_rows_of m
        ≡ subcommand_of gco_app (map S.text words.entry.now)) }
    ensures refused { IfErr result (IsNoTaskFor (map S.text words.entry.now)) }
    ensures told { IfErr result HasText }
{
    let command = gco_command(alloc)?;
    match command.try_get_matches_from(words) {
        Ok(matches) => Ok(matches),
        Err(error) => Err(no_task(alloc, &error)),
    }
}

fn no_task(alloc: Global, error: &clap::Error) -> NoTask
    ensures cause { IsNoTaskOf error.now result }
    ensures told { HasText result }
{
    if error.kind() == ErrorKind::OutOfMemory {
        return NoTask::OutOfMemory;
    }
    let Ok(text) = text_of(alloc, error) else {
        return NoTask::OutOfMemory;
    };
    if error.use_stderr() {
        NoTask::Refused(text)
    } else {
        NoTask::Help(text)
    }
}

// What is told of an error: `clap`'s text, or one of our own where it has none.
fn text_of(alloc: Global, error: &clap::Error) -> Result<String, AllocError>
    ensures { IfOk result (λ text. 0 < length (string_bytes text)) }
{
    let mut text = error.to_string(alloc)?;
    if text.is_empty() {
        text.push_str(help::COMMANDS)?;
    }
    Ok(text)
}

// What the subcommand that was used asks for.
fn entered_request(matches: &ArgMatches<'_>) -> Result<Request, Unmet>
    ensures request { IfOk result (λ request. IsSomeAnd (subcommand_rows_of matches.now)
        (λ p. IsRequestOf p.0 p.1 request)) }
    ensures unmet { IfErr result (HasNo
        (λ request. IsSomeAnd (subcommand_rows_of matches.now) (λ p. IsRequestOf p.0 p.1 request))
        (λ option. IsSomeAnd (subcommand_rows_of matches.now)
        (λ p. IsBadOptionOf p.0 p.1 option))) }
{
    match task_entered(matches) {
        Some((name, inner)) => request_of(name, inner),
        None => Err(Unmet::NoTask),
    }
}

// The subcommand that was used, with its name.
fn task_entered<'m, 'a>(matches: &'m ArgMatches<'a>) -> Option<(&'a str, &'m ArgMatches<'a>)>
    ensures { MatchOption result (subcommand_rows_of matches.now ≡ None)
        (λ p. subcommand_rows_of matches.now ≡ Some (p.0.now, rows_of (found_of p.1.now))) }
{
    matches.subcommand()
}

// What a subcommand of this name asks for.
fn request_of(name: &str, matches: &ArgMatches<'_>) -> Result<Request, Unmet>
    ensures request { IfOk result (IsRequestOf name.now (rows_of (found_of matches.now))) }
    ensures unmet { IfErr result (HasNo (IsRequestOf name.now (rows_of (found_of matches.now)))
        (IsBadOptionOf name.now (rows_of (found_of matches.now)))) }
{
    match task_of(name, matches) {
        Ok(task) => Ok(Request {
            task,
            workers: workers_in(matches),
        }),
        Err(unmet) => Err(unmet),
    }
}

// The task of a subcommand of this name.
fn task_of(name: &str, matches: &ArgMatches<'_>) -> Result<Task, Unmet>
    ensures task { IfOk result (IsTaskOf name.now (rows_of (found_of matches.now))) }
    ensures unmet { IfErr result (HasNo (IsTaskOf name.now (rows_of (found_of matches.now)))
        (IsBadOptionOf name.now (rows_of (found_of matches.now)))) }
{
    match name {
        "energy" => Ok(Task::Energy),
        "label" => Ok(Task::Label {
            bound: flag_in(matches, "bound"),
        }),
        _ => match picture_of(name, matches) {
            Ok(options) => Ok(Task::Picture(options)),
            Err(unmet) => Err(unmet),
        },
    }
}

// The options of the image command of this name.
fn picture_of(name: &str, matches: &ArgMatches<'_>) -> Result<PictureOptions, Unmet>
    ensures options { IfOk result (IsPictureOf name.now (rows_of (found_of matches.now))) }
    ensures unmet { IfErr result (HasNo (IsPictureOf name.now (rows_of (found_of matches.now)))
        (IsBadOptionOf name.now (rows_of (found_of matches.now)))) }
{
    match name {
        "restore" => Ok(PictureOptions::Restore(restore_in(matches)?)),
        "stereo" => Ok(PictureOptions::Stereo(stereo_in(matches)?)),
        "segment" => Ok(PictureOptions::Segment(segment_in(matches)?)),
        _ => Err(Unmet::NoTask),
    }
}
