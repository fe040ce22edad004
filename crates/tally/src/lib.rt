//! Counting the cases of a run, for the programs that compare what the other crates compute with numbers worked out in another way.
#![tactic(auto)]

pub mod counting;
pub mod tally;
