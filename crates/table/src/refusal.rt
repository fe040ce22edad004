/// Why a table refuses a call.
#[derive(Clone, Copy, PartialEq, Eq, Debug)]
pub enum TableRefusal {
    /// The table is not formed.
    Unformed,
    /// A slot, a quotient, a value or a place is out of range.
    OutOfRange,
    /// The slot holds the quotient.
    Held,
    /// The slot's group holds as many entries as it may.
    Full,
    /// The slot does not hold the quotient.
    Absent,
    /// The widths do not fit the table.
    DoesNotFit,
}
