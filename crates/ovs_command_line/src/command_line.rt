//! The command line.
ghost use Rattle.std.specs.Prelude.{◌≡◌, true, false, map, IfOk, IfErr, IsTrue, option_map, string_bytes};
ghost use Rattle.clap.specs.Words.{takes, fault_of, kind_of, found_of, rows_of, subcommand_rows_of};
ghost use Rattle.ovs_command_line.specs.CommandLine.{program, merge_of, is_task, found_for, IsNamed, Asks, AskToRun, AskForText};
ghost use Rattle.ovs_command_line.specs.Faults.{CanBeRead, HasOptionFault, HaveFault, IsRefusal};

use crate::command_fault::CommandFault;
use crate::commands::commands;
use crate::options::{RelayOptions, SourceOptions, relay_options, source_options};
use clap::error::ErrorKind;
use clap::{ArgMatches, Error};
use std::alloc::{AllocError, Global};
use std::convert::AsStr;

/// What a command line asks for.
#[derive(Debug, Drop)]
pub enum Task {
    /// Fold a schema and links from standard input, and merge the links of this file.
    Fold { merge: Option<String> },
    /// Tell what becomes of a source and its relays, whose events are on standard input.
    World,
    /// Keep a database and serve its readers.
    Source(SourceOptions),
    /// Follow upstreams and serve readers.
    Relay(RelayOptions),
    /// Print this text and end.
    Help(String),
    /// Print this text, the program's name and version, and end.
    Version(String),
}

// The first line of a text, without the word that clap puts before it.
fn first_line(text: &str) -> &str {
    let line = match text.split_once('\n') {
        Some((line, _)) => line,
        None => text,
    };
    match line.strip_prefix("error: ") {
        Some(rest) => rest,
        None => line,
    }
}

// What becomes of words that clap doesn't take: a text of its own where they ask for one, and else the line that says what is
// off.
fn refused(alloc: Global, error: &Error) -> Result<Task, CommandFault>
    ensures value { IsRefusal (kind_of error.now) result }
{
    let text = format!(in alloc; "{error}")?;
    match error.kind() {
        ErrorKind::OutOfMemory => Err(CommandFault::NoMemory),
        ErrorKind::DisplayHelp => Ok(Task::Help(text)),
        ErrorKind::DisplayVersion => Ok(Task::Version(text)),
        _ => Err(CommandFault::Usage(first_line(text.as_str()).to_string(alloc)?)),
    }
}

// The word after `--merge` in what is found of `fold`, if there is one.
fn merge_of(alloc: Global, fold: &ArgMatches<'_>) -> Result<Option<String>, AllocError>
    ensures value { IfOk result (λ word. option_map string_bytes word ≡ merge_of (rows_of (found_of fold.now))) }
{
    match fold.get_str("merge") {
        None => Ok(None),
        Some(word) => Ok(Some(String::from_str(alloc, word)?)),
    }
}

// What is asked for, by what clap finds of the command that is named.
fn task_of(alloc: Global, matches: &ArgMatches<'_>) -> Result<Task, CommandFault>
    requires named { IsNamed (subcommand_rows_of matches.now) }
    ensures task { IfOk result (λ task. IsTrue (is_task task) × Asks (subcommand_rows_of matches.now) task) }
    ensures fault { IfErr result (HasOptionFault (subcommand_rows_of matches.now)) }
{
    if let Some(fold) = matches.subcommand_matches("fold") {
        let merge = merge_of(alloc, fold)?;
        return Ok(Task::Fold { merge });
    }
    if let Some(source) = matches.subcommand_matches("source") {
        return Ok(Task::Source(source_options(alloc, source)?));
    }
    if let Some(relay) = matches.subcommand_matches("relay") {
        return Ok(Task::Relay(relay_options(alloc, relay)?));
    }
    Ok(Task::World)
}

/// Reads a command line: the program's name and the words after it. Nothing is opened.
///
/// # Errors
/// `Usage` where the words are no task, as where no command is named, or an option stands twice or has no word after it.
/// `Missing`, `BadValue`, `OneTooMany` and `OwnAddress` where the words after the options of `source` or `relay` aren't what is
/// wanted. And `NoMemory`.
pub fn command<S: AsStr>(alloc: Global, words: &[S]) -> Result<Task, CommandFault>
    ensures accepted { takes program (map S.text words.now) ≡ true → CanBeRead (map S.text words.now)
        → IfOk result (AskToRun (map S.text words.now)) × IfErr result (λ fault. fault ≡ CommandFault.NoMemory) }
    ensures only { IfOk result (λ task. fault_of program (map S.text words.now) ≡ found_for task) }
    ensures asks { IfOk result (λ task. IsTrue (is_task task) → AskToRun (map S.text words.now) task) }
    ensures asked { AskForText (map S.text words.now)
        → IfOk result (λ task. is_task task ≡ false) × IfErr result (λ fault. fault ≡ CommandFault.NoMemory) }
    ensures fault { IfErr result (HaveFault (map S.text words.now)) }
{
    let matches = match commands(alloc)?.try_get_matches_from(words) {
        Ok(matches) => matches,
        Err(error) => return refused(alloc, &error),
    };
    task_of(alloc, &matches)
}
