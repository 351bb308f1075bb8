//! Tests of the program's parts, and nothing else: what faults, names, lines and byte ends come to, the words and
//! lists of rounds, what nodes' tables hold and send each other, what owners wrote, how far their copies lag, and
//! the records of exchanges in list order. Each value comes from outside the program: it was worked out by hand,
//! stands in a standard, or is another program's.
#![tactic(auto)]

#[cfg(test)]
mod tests;
