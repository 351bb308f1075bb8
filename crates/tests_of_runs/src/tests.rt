//! The modules of tests, and what they share.

mod comparing;
mod crews;
mod crowded_steps;
mod failing_ends;
mod forgetting;
mod freed;
mod gates;
mod inputs;
mod jobs;
mod long_lists;
mod pools;
mod scopes;
mod seats;
mod several_workers;
mod small_boards;
mod steps;
mod tables;
mod threads;
mod turns;
mod values;
