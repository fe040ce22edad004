//! The calls of the dictionary.
use crate::operation::{Answer, Operation};
use dictionary::{Addressing, redistribute};
use permutation::Permutation;
use table::table::Table;

/// A table in use under a permutation, and the table that it is moved into.
pub struct InUse<'a, P: Permutation, A: Table, B: Table> {
    pub by: Addressing<'a, P>,
    pub table: &'a mut A,
    pub other: &'a mut B,
}

impl<'a, P: Permutation, A: Table, B: Table> InUse<'a, P, A, B> {
    /// Puts an operation.
    pub fn put(self, operation: Operation) -> Answer {
        let InUse { by, table, other } = self;
        match operation {
            Operation::Take(run) => Answer::Run(by.take_run(table, run)),
            Operation::Cancel(run) => Answer::Run(by.cancel_run(table, run)),
            Operation::LookUp(key) => Answer::Value(by.look_up(table, key)),
            Operation::Entry(i) => Answer::Entry(by.entry_at(table, i)),
            Operation::Enlarge => Answer::Moved(redistribute(table, other, by.shape)),
        }
    }
}
