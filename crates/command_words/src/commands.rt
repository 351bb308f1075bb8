//! The program's commands, as clap has them.

ghost use Rattle.std.specs.Prelude.{◌≡◌, IfOk, IsOkAnd, []};
ghost use Rattle.clap.specs.Words.{AddsSubcommand, app_of, rule_of, shape_of};
ghost use Rattle.command_words.specs.Program.{check_command, compare_command, program, program_alone, run_command};
ghost use Rattle.command_words.specs.Program.{trace_option, workers_option};

use bench_types::limits::MOST_WORKERS;
use clap::{Arg, Command, value_parser};
use std::alloc::{AllocError, Global};

// The program, with its commands.
pub(crate) fn commands<'a>(alloc: Global) -> Result<Command<'a>, AllocError>
    ensures { IfOk result (λ command. app_of command ≡ program) }
{
    with(
        with(with(program(alloc), Ok(check(alloc))), run(alloc)),
        compare(alloc),
    )
}

// A command with one more, where there are both. What is left is dropped by a call, which has far fewer steps to prove.
fn with<'a>(
    all: Result<Command<'a>, AllocError>,
    one: Result<Command<'a>, AllocError>,
) -> Result<Command<'a>, AllocError>
    ensures { IfOk result (λ r. IsOkAnd all.entry (λ old. IsOkAnd one.entry (λ sub. AddsSubcommand old sub r))) }
{
    match all {
        Ok(all) => match one {
            Ok(one) => all.subcommand(one),
            Err(error) => {
                drop(all);
                Err(error)
            }
        },
        Err(error) => {
            drop(one);
            Err(error)
        }
    }
}

fn program<'a>(alloc: Global) -> Result<Command<'a>, AllocError>
    ensures { IfOk result (λ command. app_of command ≡ record { top = program_alone; subs = [] }) }
{
    Command::new(alloc, "gossip_bench")
        .about("Simulates anti-entropy gossip. Reads a scenario (TOML) on standard input.")
        .after_help("Example: gossip_bench run < examples/two_nodes.toml")
        .no_binary_name(true)
        .disable_help_subcommand(true)
        .subcommand_required(true)
        .bin_name("gossip_bench")
}

fn check<'a>(alloc: Global) -> Command<'a>
    ensures { shape_of result ≡ check_command }
{
    Command::new(alloc, "check").about("Check the scenario and print ok")
}

fn run<'a>(alloc: Global) -> Result<Command<'a>, AllocError>
    ensures { IfOk result (λ command. shape_of command ≡ run_command) }
{
    Command::new(alloc, "run")
        .about("Run the scenario and print its report, a row for each round")
        .arg(workers(alloc))?
        .arg(trace(alloc))
}

fn compare<'a>(alloc: Global) -> Result<Command<'a>, AllocError>
    ensures { IfOk result (λ command. shape_of command ≡ compare_command) }
{
    Command::new(alloc, "compare")
        .about("Run the scenario under each mode and print all rows")
        .arg(workers(alloc))
}

fn workers<'a>(alloc: Global) -> Arg<'a>
    ensures { rule_of result ≡ workers_option }
{
    Arg::new(alloc, "workers")
        .long("workers")
        .value_name("N")
        .value_parser(value_parser!(u32).range(1..=i64::from(MOST_WORKERS)))
        .default_value("1")
        .help("Do the exchanges of a round in N threads, from 1 to 64; the output is the same")
}

fn trace<'a>(alloc: Global) -> Arg<'a>
    ensures { rule_of result ≡ trace_option }
{
    Arg::new(alloc, "trace")
        .long("trace")
        .value_name("FILE")
        .help(
            "Write a line for each exchange to FILE, which is made anew before the scenario is read: name a file of its own",
        )
}
