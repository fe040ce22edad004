//! The tables as the runs see them.
use crate::widths::Widths;
use blocks::{PackedTable, PlainTable};
use expected::shown::Shown;
use table::check_refusal::CheckRefusal;

/// A table that is tried.
pub trait Tried: Shown + Drop {
    /// An unformed table over words.
    fn over(words: Vec<u64>) -> Self;

    /// The table that words are kept as.
    fn kept(words: Vec<u64>, widths: Widths) -> Self;

    /// What a check of words answers.
    fn checked(words: &[u64], widths: Widths) -> Result<(), CheckRefusal>;
}

impl Tried for PlainTable {
    fn over(words: Vec<u64>) -> PlainTable {
        PlainTable::set_up(words)
    }

    fn kept(words: Vec<u64>, widths: Widths) -> PlainTable {
        PlainTable::keep(words, widths.k, widths.v, widths.b)
    }

    fn checked(words: &[u64], widths: Widths) -> Result<(), CheckRefusal> {
        PlainTable::check(words, widths.k, widths.v, widths.b)
    }
}

impl Tried for PackedTable {
    fn over(words: Vec<u64>) -> PackedTable {
        PackedTable::set_up(words)
    }

    fn kept(words: Vec<u64>, widths: Widths) -> PackedTable {
        PackedTable::keep(words, widths.k, widths.v, widths.b)
    }

    fn checked(words: &[u64], widths: Widths) -> Result<(), CheckRefusal> {
        PackedTable::check(words, widths.k, widths.v, widths.b)
    }
}
