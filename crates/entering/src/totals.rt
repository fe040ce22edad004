//! What is counted of an arrival list.

/// How many stays an arrival list has, how many of them are taken and how many refused, and how many lines cannot be read.
#[derive(Clone, Copy, PartialEq, Eq, Debug)]
pub struct Totals {
    pub stays: u64,
    pub taken: u64,
    pub refused: u64,
    pub unread: u64,
}
