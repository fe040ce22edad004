//! Key numbers to value numbers through one permutation and one table: whole operations, each judged before its first change.
//! A table that holds a list of entries answers as the list does, and then holds the list after the operation.
#![tactic(auto)]

mod addressing;
mod cancel;
mod look;
mod moves;
mod places;
mod reach;
mod reached;
mod run;
mod shaped;
mod take;

pub use addressing::Addressing;
pub use moves::redistribute;
pub use run::Run;
