//! The lines of the bench's texts of comma-separated fields, written to any sink. Each call makes
//! its lines in memory, then writes and flushes them.
//!
//! # Choices
//!
//! - The columns of the report are an enum: `Column::ALL` has their order, and the headers and the rows of report and
//!   comparison go over it.
//! - No clause says of a push that the sink isn't flushed any more, since a sink may flush by itself.
#![tactic(auto)]

mod cells;
mod columns;
mod comparisons;
mod outputs;
mod reports;
mod traces;

pub use comparisons::{compare_header, write_compare_row};
pub use reports::{report_header, write_report_row};
pub use traces::{trace_header, write_trace_rows};
