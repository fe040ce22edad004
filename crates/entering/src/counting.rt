//! Counting what came of each line of an arrival list.
ghost use Rattle.std.specs.Prelude.{◌≡◌};
ghost use Rattle.entering.specs.Totals.{nothing, with_stay, with_unread};

use crate::totals::Totals;
use model::run_refusal::RunRefusal;

impl Totals {
    /// Nothing counted yet.
    pub fn none() -> Totals
        ensures value { result ≡ nothing }
    {
        Totals {
            stays: 0,
            taken: 0,
            refused: 0,
            unread: 0,
        }
    }

    /// One stay more, of which this came.
    pub fn add_stay(&mut self, outcome: Result<u64, RunRefusal>)
        ensures after { self.new ≡ with_stay self.old outcome }
    {
        self.stays = self.stays.saturating_add(1);
        match outcome {
            Ok(_) => self.taken = self.taken.saturating_add(1),
            Err(_) => self.refused = self.refused.saturating_add(1),
        }
    }

    /// One line more that cannot be read.
    pub fn add_unread(&mut self)
        ensures after { self.new ≡ with_unread self.old }
    {
        self.unread = self.unread.saturating_add(1);
    }
}
