//! What the words of a command line ask for.

/// What the words of a command line ask for. Workers are how many threads do the exchanges of a round, from 1
/// to `MOST_WORKERS`.
#[derive(Clone, Copy)]
pub enum Job<'a> {
    /// To check a scenario.
    Check,
    /// To run it and write its report, and its trace to a file where one is named.
    Run {
        trace: Option<&'a str>,
        workers: u32,
    },
    /// To compare the modes.
    Compare {
        workers: u32,
    },
}
