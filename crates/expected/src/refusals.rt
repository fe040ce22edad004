ghost use Rattle.std.specs.Prelude.{◌≡◌};
ghost use Rattle.expected.specs.Refusals.{table_number, number};

use model::refusal::Refusal;
use table::refusal::TableRefusal;

/// The number that a table's refusal should have.
pub fn table_number(why: TableRefusal) -> u64
    ensures value { result ≡ table_number why }
{
    match why {
        TableRefusal::Unformed => 1,
        TableRefusal::OutOfRange => 2,
        TableRefusal::Held => 3,
        TableRefusal::Full => 4,
        TableRefusal::Absent => 5,
        TableRefusal::DoesNotFit => 6,
    }
}

/// The number that a register's refusal should have.
pub fn number(why: Refusal) -> u64
    ensures value { result ≡ number why }
{
    match why {
        Refusal::UnknownKey => 11,
        Refusal::UnknownValue => 12,
        Refusal::RunLength => 13,
        Refusal::Closed => 14,
        Refusal::AlreadyOpen => 15,
        Refusal::PermutationWidth => 16,
        Refusal::OtherValue => 17,
        Refusal::NoSuchPlace => 18,
        Refusal::Unreached => 99,
        Refusal::Table(inner) => table_number(inner),
    }
}
