//! The words of the command line: which of them ask for what, the file that one names, and what is said of the others
//! and of a fault.
//!
//! # Choices
//!
//! - `NoJob` is what `clap` answers in place of a job: help or a refusal, each with its text, or that memory ran out,
//!   also where it is refused for the text. So no crate above names `clap`.
//! - What is told of a fault, and of words that ask for no job, needs nothing of a run, nor does the file of a trace. So
//!   they stand here, and are proved before a run is.
#![tactic(auto)]

mod answers;
mod commands;
mod jobs;
mod lines;
mod traces;
mod words;

pub use answers::{REFUSED, answer_words, status_of};
pub use jobs::Job;
pub use traces::trace_file;
pub use words::{NoJob, job_of, words_of};
