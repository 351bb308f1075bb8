//! Makes each call that takes memory or threads, and where one is refused makes it again: what it was given is then
//! unchanged or comes back, what stands is what is promised, and the second answer is right. It prints the calls whose
//! answers were right, and so the same whichever growth is refused.
//!
//! First come single calls, from tables of nodes to a scenario's text and the lines of a report. Then come four
//! scenarios with 1, 2 and 4 workers, step by step, list by list and text by text; a list of eight pairs and one in
//! which a deque must grow; and by one worker a step whose figures are worked out in threads.
//!
//! `scripts/try_refusals` refuses each call in turn, of one part at a time. Standard input names it: `t` the single
//! calls, and three digits the line that is printed, by its call, the place of its case and the workers.
#![tactic(auto)]

mod boards;
mod cases;
mod counting;
mod deltas;
mod exchanges;
mod failures;
mod figures;
mod lines;
mod lists;
mod scenarios;
mod schedules;
mod steps;
mod tables;
mod texts;
mod trials;

use bench_types::{Failed, Pull, Source};
use cases::{CASES, Case, LISTS, MANY_NUMBERS};
use failures::{Failure, end, pass};
use fixtures::Team;
use std::process::ExitCode;
use std::sync::Wait;
use std::thread::Threads;
use texts::Job;
use trials::{Call, Trial};

fn main(rt: HostRuntime) -> ExitCode {
    end(&rt, try_all(&rt))
}

// What is tried.
#[derive(Clone, Copy)]
enum Choice {
    All,
    // The single calls, from tables of nodes on.
    Tables,
    // The digits of a call, of a case by its place, and of how many workers there are.
    Trial { call: u8, case: u8, workers: u8 },
}

impl Choice {
    // What standard input names.
    fn from_input(rt: &impl Input) -> Result<Choice, Failure> {
        let mut named = [0u8; 3];
        match Pull::new(rt.reader()).pull(&mut named) {
            Ok(0) => Ok(Choice::All),
            Ok(_) => Ok(match named {
                [b't', ..] => Choice::Tables,
                [call, case, workers] => Choice::Trial {
                    call,
                    case,
                    workers,
                },
            }),
            Err(Failed) => Err(Failure::Wrong),
        }
    }

    fn has_tables(self) -> bool {
        matches!(self, Choice::All | Choice::Tables)
    }

    fn has(self, trial: Trial) -> bool {
        match self {
            Choice::All => true,
            Choice::Tables => false,
            Choice::Trial {
                call,
                case,
                workers,
            } => {
                call == trial.call.digit()
                    && usize::from(case.wrapping_sub(b'0')) == trial.place
                    && u32::from(workers.wrapping_sub(b'0')) == trial.team.workers()
            }
        }
    }
}

fn try_all<R: Print + Eprint + Input + AllocGlobal + Threads + Wait + Sync>(
    rt: &R,
) -> Result<(), Failure> {
    let choice = Choice::from_input(rt)?;
    if choice.has_tables() {
        try_tables(rt)?;
    }
    try_cases(rt, choice)?;
    try_lists(rt, choice)?;
    try_many_numbers(rt, choice)?;
    for call in ["read_all", "check_input", "Sim::new"] {
        pass(rt, call)?;
    }
    Ok(())
}

fn try_tables<R: Print + Eprint + AllocGlobal + Threads + Sync>(rt: &R) -> Result<(), Failure> {
    tables::try_tables(rt)?;
    deltas::try_digests_and_deltas(rt)?;
    exchanges::try_exchanges(rt)?;
    schedules::try_schedules(rt)?;
    boards::try_boards(rt)?;
    figures::try_lists_and_figures(rt)?;
    scenarios::try_scenarios(rt)?;
    lines::try_lines(rt)
}

fn try_cases<R: Print + Eprint + AllocGlobal + Threads + Wait + Sync>(
    rt: &R,
    choice: Choice,
) -> Result<(), Failure> {
    for (place, case) in CASES.iter().enumerate() {
        for team in Team::ALL {
            for call in Call::ALL {
                let trial = Trial { call, place, team };
                if choice.has(trial) {
                    try_call(rt, case, trial)?;
                }
            }
        }
    }
    Ok(())
}

fn try_lists<R: Print + Eprint + AllocGlobal + Threads + Wait + Sync>(
    rt: &R,
    choice: Choice,
) -> Result<(), Failure> {
    for (place, list) in LISTS.iter().enumerate() {
        for team in Team::ALL {
            let trial = Trial {
                call: Call::RunList,
                place: CASES.len() + place,
                team,
            };
            if choice.has(trial) {
                lists::try_lone(rt, list, trial)?;
            }
        }
    }
    Ok(())
}

fn try_many_numbers<R: Print + Eprint + AllocGlobal + Threads + Wait + Sync>(
    rt: &R,
    choice: Choice,
) -> Result<(), Failure> {
    let trial = Trial {
        call: Call::Step,
        place: CASES.len() + LISTS.len(),
        team: Team::One,
    };
    if choice.has(trial) {
        steps::try_steps(rt, MANY_NUMBERS, trial)?;
    }
    Ok(())
}

fn try_call<R: Print + Eprint + AllocGlobal + Threads + Wait + Sync>(
    rt: &R,
    case: &Case,
    trial: Trial,
) -> Result<(), Failure> {
    match trial.call {
        Call::Step => {
            texts::try_input(rt, case)?;
            steps::try_steps(rt, case.rounds(), trial)
        }
        Call::RunList => lists::try_list(rt, case, trial),
        Call::Run => texts::try_job(rt, Job::Run, case, trial),
        Call::Compare => texts::try_job(rt, Job::Compare, case, trial),
    }
}
