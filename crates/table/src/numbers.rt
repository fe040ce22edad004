ghost use Rattle.std.specs.Prelude.{◌≡◌};
ghost use Rattle.table.specs.Refusals.{table_says, check_says};

use crate::check_refusal::CheckRefusal;
use crate::refusal::TableRefusal;

impl TableRefusal {
    /// The refusal's number.
    pub fn number(&self) -> u64
        ensures { result ≡ (table_says self.now).0 }
    {
        // By name: the numbers are published, and no conversion that is derived would show them.
        match *self {
            TableRefusal::Unformed => 1,
            TableRefusal::OutOfRange => 2,
            TableRefusal::Held => 3,
            TableRefusal::Full => 4,
            TableRefusal::Absent => 5,
            TableRefusal::DoesNotFit => 6,
        }
    }
}

impl CheckRefusal {
    /// The refusal's number.
    pub fn number(&self) -> u64
        ensures { result ≡ (check_says self.now).0 }
    {
        // By name: the numbers are published, and no conversion that is derived would show them.
        match *self {
            CheckRefusal::DoesNotFit => 6,
            CheckRefusal::WrongBlock(_) => 7,
        }
    }
}
