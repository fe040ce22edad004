//! What the refusals of a table are called.
use std::fmt;
use table::refusal::TableRefusal;

/// A table's refusal, as this program says why a night is not taken.
#[derive(Clone, Copy)]
pub struct Said(pub TableRefusal);

impl fmt::Display for Said {
    fn fmt<W: fmt::Write>(&self, f: &mut fmt::Formatter<W>) -> fmt::Result {
        f.write_str(match self.0 {
            TableRefusal::Held => "the pitch is taken on that night",
            TableRefusal::Full => "its group is full",
            TableRefusal::OutOfRange => "it is out of range",
            TableRefusal::Unformed => "the table is not formed",
            TableRefusal::Absent => "it is not there",
            TableRefusal::DoesNotFit => "it does not fit",
        })
    }
}
