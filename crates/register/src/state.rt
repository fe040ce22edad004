use crate::side::Side;
use coding::Coding;
use permutation::Permutation;
use table::table::Table;

/// Of an open register: the table in use, which has 2^b slots.
#[derive(Clone, Copy)]
pub(crate) struct Opened {
    pub(crate) side: Side,
    pub(crate) b: u32,
}

/// A register: from the items of one coding to those of another, through a permutation, in one of two tables of any kinds.
#[derive(Drop)]
pub struct Register<K: Coding, V: Coding, P: Permutation, A: Table, B: Table> {
    pub(crate) keys: K,
    pub(crate) values: V,
    pub(crate) permutation: P,
    pub(crate) first: A,
    pub(crate) second: B,
    pub(crate) opened: Option<Opened>,
    pub(crate) count: u64,
}
