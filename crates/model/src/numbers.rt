ghost use Rattle.std.specs.Prelude.{◌≡◌};
ghost use Rattle.model.specs.Refusals.{says};
ghost use Rattle.model.specs.declared.refusal.Refusal.TheVariants.{Table as FromTable};

use crate::refusal::Refusal;
use crate::run_refusal::RunRefusal;
use table::refusal::TableRefusal;

/// A table's refusal is passed on whole.
impl From<TableRefusal> for Refusal {
    ghost from_gives = { λ e r. r ≡ FromTable e };

    fn from(e: TableRefusal) -> Refusal {
        Refusal::Table(e)
    }
}

impl Refusal {
    /// The refusal's number; of a table's refusal, the table's own.
    pub fn number(&self) -> u64
        ensures value { result ≡ (says self.now).0 }
    {
        // By name: the numbers are published, and no conversion that is derived would show them.
        match *self {
            Refusal::UnknownKey => 11,
            Refusal::UnknownValue => 12,
            Refusal::RunLength => 13,
            Refusal::Closed => 14,
            Refusal::AlreadyOpen => 15,
            Refusal::PermutationWidth => 16,
            Refusal::OtherValue => 17,
            Refusal::NoSuchPlace => 18,
            Refusal::Unreached => 99,
            Refusal::Table(inner) => inner.number(),
        }
    }

    /// The same refusal at a place of a run.
    pub fn at(self, place: u64) -> RunRefusal
        ensures value { result ≡ record { place = place; why = self } }
    {
        RunRefusal { place, why: self }
    }
}
