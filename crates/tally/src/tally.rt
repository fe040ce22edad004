//! The counts of a run.

/// How many cases were tried, how many of them came out wrong, and which was the first of these, counted from 1, if any.
#[derive(Clone, Copy)]
pub struct Tally {
    pub cases: u64,
    pub wrong: u64,
    pub first: Option<u64>,
}
