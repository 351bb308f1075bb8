//! Reading the words of a command line.

ghost use Rattle.std.specs.Prelude.{◌≡◌, ◌↔◌, IfOk, IsTrue, MatchOption, MatchResult, map, ℕ};
ghost use Rattle.clap.specs.Words.{app_of, found_of, kind_of, rows_of, subcommand_rows_of};
ghost use Rattle.command_words.specs.Jobs.{AreWorkersOf, AsksForNone, IsAskedFor};
ghost use Rattle.command_words.specs.Program.{program};
ghost use Rattle.command_words.specs.Words.{AskFor, HaveNoJob};
ghost use Rattle.command_words.specs.inner.Errors.{IsParsed, IsReason};
ghost use Rattle.command_words.specs.Workers.{AreLawfulWorkers, HasLawfulWorkers};

use crate::commands::commands;
use crate::jobs::Job;
use bench_types::limits::MOST_WORKERS;
use clap::error::ErrorKind;
use clap::{ArgMatches, Command, Error};
use std::alloc::{AllocGlobal, Global};
use std::convert::AsStr;
use std::env::Env;
use std::{env, io};

/// Why words ask for no job.
#[derive(Drop)]
pub enum NoJob {
    /// They ask for help, which is this text.
    Help(String),
    /// They are refused, and this text says why.
    Refused(String),
    /// Memory ran out.
    OutOfMemory,
}

/// The words of the process behind the program's name. An error is `InvalidData` where one isn't UTF-8, or lack of
/// memory.
pub fn words_of(rt: &(impl Env + AllocGlobal)) -> io::Result<Vec<String>> {
    Ok(env::args(rt)?.skip(1).collect(rt.alloc())?)
}

/// What the words ask for, without the program's name. Where that is no job, the error says why.
pub fn job_of<'a, S: AsStr>(alloc: Global, words: &'a [S]) -> Result<Job<'a>, NoJob>
    ensures workers { IfOk result HasLawfulWorkers }
    ensures answer { MatchResult result (AskFor (map S.text words.entry.now)) (HaveNoJob (map S.text words.entry.now)) }
{
    match parse(alloc, words) {
        Ok(job) => Ok(job),
        Err(error) => Err(reason_of(alloc, &error)),
    }
}

// What an error of clap says.
fn reason_of(alloc: Global, error: &Error) -> NoJob
    ensures { IsReason (kind_of error.now) result }
{
    match format!(in alloc; "{error}") {
        _ if error.kind() == ErrorKind::OutOfMemory => NoJob::OutOfMemory,
        Err(_) => NoJob::OutOfMemory,
        Ok(text) if error.use_stderr() => NoJob::Refused(text),
        Ok(text) => NoJob::Help(text),
    }
}

fn parse<'a, S: AsStr>(alloc: Global, words: &'a [S]) -> Result<Job<'a>, Error>
    ensures { IsParsed (map S.text words.entry.now) result }
{
    let mut commands = commands(alloc)?;
    let parsed = parse_by(&mut commands, words);
    drop(commands);
    parsed
}

// Reads the words by the commands of the program.
fn parse_by<'a, S: AsStr>(commands: &mut Command<'a>, words: &'a [S]) -> Result<Job<'a>, Error>
    requires { app_of commands.old ≡ program }
    ensures { IsParsed (map S.text words.entry.now) result }
{
    let matches = commands.try_get_matches_from_mut(words)?;
    match asked_for(&matches) {
        Some(job) => Ok(job),
        None => Err(commands.error(ErrorKind::InvalidSubcommand, "no such command")?),
    }
}

// The job of words that were parsed. There is none where a command or a number of workers is unknown,
// which the parser refuses before.
fn asked_for<'a>(matches: &ArgMatches<'a>) -> Option<Job<'a>>
    ensures { MatchOption result (AsksForNone (subcommand_rows_of matches.now))
        (IsAskedFor (subcommand_rows_of matches.now)) }
{
    match matches.subcommand()? {
        ("check", _) => Some(Job::Check),
        ("run", options) => Some(Job::Run {
            trace: options.get_str("trace"),
            workers: workers_of(options)?,
        }),
        ("compare", options) => Some(Job::Compare {
            workers: workers_of(options)?,
        }),
        _ => None,
    }
}

fn workers_of(options: &ArgMatches) -> Option<u32>
    ensures { MatchOption result
        ((workers : ℕ) → AreWorkersOf (rows_of (found_of options.now)) workers → AreLawfulWorkers workers → ⊥)
        (λ workers. AreWorkersOf (rows_of (found_of options.now)) workers × AreLawfulWorkers workers) }
{
    let workers: u32 = options.get_one("workers")?;
    if are_lawful(workers) {
        Some(workers)
    } else {
        None
    }
}

fn are_lawful(workers: u32) -> bool
    ensures { IsTrue result ↔ AreLawfulWorkers workers }
{
    1 <= workers && workers <= MOST_WORKERS
}
