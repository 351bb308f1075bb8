//! Tests of what several threads carry out, and of whole runs that need code: boards, workers and their lists,
//! readers and writers that go byte by byte and fail, a simulation step by step, and what an accepted scenario says.
//! Values were worked out by hand, or are those of one thread that goes through the list in order. The cases of the
//! crate `acceptance` go from text to text.
#![tactic(auto)]

#[cfg(test)]
mod tests;
