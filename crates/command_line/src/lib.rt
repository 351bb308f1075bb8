//! The command line of the program: what comes of its words.
//!
//! # Choices
//!
//! - `perform` says what each command comes to, with the report, the trace and the faults of the library's contracts.
#![tactic(auto)]

mod jobs;
mod processes;
mod programs;

pub use command_words::Job;
pub use jobs::{Host, perform};
pub use processes::run_process;
pub use programs::main_with;
