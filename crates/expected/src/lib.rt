//! What the runs of the tables, the dictionary and the register compare with, worked out in another way than the crates that they try:
//! numbers that look random, arithmetic that cannot fail, and the words of both kinds of table, a bit at a time.
#![tactic(auto)]

pub mod clear;
pub mod held;
pub mod kind;
pub mod layout;
pub mod noise;
pub mod numbers;
mod packed_words;
pub mod refusals;
pub mod shown;
pub mod words;
