ghost use Rattle.std.specs.Prelude.{◌≡◌, ◌-◌, ◌^◌, ◌≤◌, nat_lt};
ghost use Rattle.dictionary.specs.Results.{reach, reply, unreached, InReach};

use crate::addressing::Addressing;
use crate::reached::Reached;
use crate::run::Run;
use model::refusal::Refusal;
use model::run_refusal::RunRefusal;
use table::refusal::TableRefusal;

impl<'a, P> Addressing<'a, P> {
    // A run so far as its key numbers have places; none of it where its value number is out of range.
    pub(crate) fn reached(&self, run: Run) -> Reached<'a, P>
        ensures by { result.by ≡ self.now }
        ensures run { result.run ≡ record { first = run.first; length = reach self.now.shape.k self.now.shape.v run.first run.length run.value; value = run.value } }
        ensures most { result.run.length ≤ run.length }
    {
        let length = self.reach(run);
        Reached {
            by: *self,
            run: Run { length, ..run },
        }
    }

    // How many of a run's key numbers have places.
    fn reach(&self, run: Run) -> u64
        ensures value { result ≡ reach self.now.shape.k self.now.shape.v run.first run.length run.value }
        ensures there { InReach self.now.shape.k self.now.shape.v run.first result run.value }
        ensures most { result ≤ run.length }
        ensures bound { result ≤ 2 ^ 32 - run.first }
    {
        if run.value >= 1u64 << self.shape.v {
            return 0;
        }
        let keys = 1u64 << self.shape.k;
        run.length.min(keys.saturating_sub(run.first))
    }
}

impl<'a, P> Reached<'a, P> {
    // That the whole run of n keys is reached; out of range at the place that is not.
    pub(crate) fn covers(&self, n: u64) -> Result<(), RunRefusal>
        ensures { result ≡ reply (unreached self.now.run.length (nat_lt self.now.run.length n)) }
    {
        if self.run.length < n {
            return Err(Refusal::Table(TableRefusal::OutOfRange).at(self.run.length));
        }
        Ok(())
    }
}
