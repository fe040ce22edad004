//! Refusals, and the numbers that they should have.
use expected::refusals::table_number;
use table::check_refusal::CheckRefusal;
use table::refusal::TableRefusal;

/// A refusal whose number is compared with one that is written down.
pub trait Refused: PartialEq + Copy {
    /// Whether it has the number.
    fn is_numbered(&self) -> bool;
}

impl Refused for TableRefusal {
    fn is_numbered(&self) -> bool {
        self.number() == table_number(*self)
    }
}

impl Refused for CheckRefusal {
    fn is_numbered(&self) -> bool {
        let written = match self {
            CheckRefusal::DoesNotFit => 6,
            CheckRefusal::WrongBlock(_) => 7,
        };
        self.number() == written
    }
}

/// Whether an answer is the wanted one, and its refusal has its number.
pub fn is<V: PartialEq + Drop, E: Refused>(got: Result<V, E>, want: Result<V, E>) -> bool {
    got == want && got.err().is_none_or(|why| why.is_numbered())
}
