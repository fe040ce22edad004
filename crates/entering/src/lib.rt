//! The calls that enter the stays of an arrival list into a night register, and what came of each.
#![tactic(auto)]

pub mod calls;
pub mod counting;
pub mod outcomes;
pub mod totals;
