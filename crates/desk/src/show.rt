//! What the refusals of a register are called.
use model::refusal::Refusal;
use std::fmt;
use table::refusal::TableRefusal;

/// A register's refusal, in a sentence.
#[derive(Clone, Copy)]
pub struct Said(pub Refusal);

impl fmt::Display for Said {
    fn fmt<W: fmt::Write>(&self, f: &mut fmt::Formatter<W>) -> fmt::Result {
        f.write_str(match self.0 {
            Refusal::UnknownKey =>
                "there is no such pitch or night: pitches are 0 to 999, nights 0 to 731",
            Refusal::UnknownValue => "there is no such booking: bookings are 1 to 9999999",
            Refusal::RunLength => "a stay has 1 to 64 nights",
            Refusal::Closed => "the register is not open",
            Refusal::AlreadyOpen => "the register is open already",
            Refusal::PermutationWidth => "the permutation is of another width than the nights",
            Refusal::OtherValue => "the pitch is taken on that night, under another booking",
            Refusal::NoSuchPlace => "the register does not hold so many nights",
            Refusal::Unreached => "no register that keeps its promise answers so",
            Refusal::Table(TableRefusal::Held) => "the pitch is taken on that night",
            Refusal::Table(TableRefusal::Full) => "the register has no room left for that night",
            Refusal::Table(TableRefusal::Absent) => "the pitch is not taken on that night",
            Refusal::Table(TableRefusal::DoesNotFit) =>
                "this number of slots does not fit the table",
            Refusal::Table(TableRefusal::Unformed) => "the table is not formed",
            Refusal::Table(TableRefusal::OutOfRange) => "a number is out of the range of the table",
        })
    }
}
