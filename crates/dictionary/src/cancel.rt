ghost use Rattle.std.specs.Prelude.{◌≡◌, ℕ, ◌+◌, ◌^◌, ◌<◌, length, Some, None, Ok, Err};
ghost use Rattle.table.specs.Meaning.{value_in};
ghost use Rattle.model.specs.declared.run_refusal.RunRefusal.{RunRefusal as Refused};
ghost use Rattle.model.specs.Entries.{Entries, without_run, cancel_one, cancel_refusal};
ghost use Rattle.dictionary.specs.Stored.{Holds};
ghost use Rattle.dictionary.specs.Results.{cancel_judged, reply, list_after};

use crate::addressing::Addressing;
use crate::reached::Reached;
use crate::run::Run;
use model::refusal::Refusal;
use model::run_refusal::RunRefusal;
use permutation::Permutation;
use table::refusal::TableRefusal;
use table::table::Table;

impl<'a, P: Permutation> Addressing<'a, P> {
    /// Cancels the keys of a run, each of them held under its value, all of them or none.
    pub fn cancel_run<T: Table>(&self, table: &mut T, run: Run) -> Result<(), RunRefusal>
        ensures value { (l : Entries) → Holds P.Permutation T.Table self.now table.old l
            → result ≡ reply (cancel_judged self.now.shape.k self.now.shape.v l run.first run.length run.value) }
        ensures after { (l : Entries) → Holds P.Permutation T.Table self.now table.old l
            → Holds P.Permutation T.Table self.now table.new (list_after l (without_run run.first run.length l)
            (cancel_judged self.now.shape.k self.now.shape.v l run.first run.length run.value)) }
        ensures kept { (l : Entries) → Holds P.Permutation T.Table self.now table.old l → (e : Refused) → result ≡ Err e → table.new ≡ table.old }
        ensures len { length (T.Table.words table.new) ≡ length (T.Table.words table.old) }
        ensures fits { T.Table.fits table.new ≡ T.Table.fits table.old }
    {
        let reached = self.reached(run);
        reached.may_cancel(table)?;
        reached.covers(run.length)?;
        reached.cancel(table)
    }

    // One key number out of the table.
    pub(crate) fn remove_key<T: Table>(&self, table: &mut T, m: u64) -> Result<u64, TableRefusal>
        ensures value { (l : Entries) → Holds P.Permutation T.Table self.now table.old l → m < 2 ^ self.now.shape.k
            → (u : ℕ) → value_in l m ≡ Some u → result ≡ Ok u }
        ensures after { (l : Entries) → Holds P.Permutation T.Table self.now table.old l → m < 2 ^ self.now.shape.k
            → (u : ℕ) → value_in l m ≡ Some u → Holds P.Permutation T.Table self.now table.new (without_run m 1 l) }
        ensures len { length (T.Table.words table.new) ≡ length (T.Table.words table.old) }
        ensures fits { T.Table.fits table.new ≡ T.Table.fits table.old }
    {
        let place = self.place(m);
        table.remove(place.slot, place.quotient)
    }
}

impl<'a, P: Permutation> Reached<'a, P> {
    // What stands against cancelling key i.
    fn may_cancel_at<T: Table>(&self, table: &T, i: u64) -> Result<(), Refusal>
        requires { i < self.now.run.length }
        ensures { (l : Entries) → Holds P.Permutation T.Table self.now.by table.now l
            → result ≡ reply (cancel_one self.now.run.value (value_in l (self.now.run.first + i))) }
    {
        if self.by.look_up(table, self.run.first + i)? != self.run.value {
            return Err(Refusal::OtherValue);
        }
        Ok(())
    }

    // What stands against cancelling the run, at the first of its keys that is refused.
    fn may_cancel<T: Table>(&self, table: &T) -> Result<(), RunRefusal>
        ensures { (l : Entries) → Holds P.Permutation T.Table self.now.by table.now l
            → result ≡ reply (cancel_refusal l self.now.run.first self.now.run.value 0 self.now.run.length) }
    {
        for i in 0..self.run.length {
            self.may_cancel_at(table, i).map_err(|why| why.at(i))?;
        }
        Ok(())
    }

    // The keys out of the table, after `may_cancel` has found nothing against it.
    fn cancel<T: Table>(&self, table: &mut T) -> Result<(), RunRefusal>
        ensures value { (l : Entries) → Holds P.Permutation T.Table self.now.by table.old l
            → cancel_refusal l self.now.run.first self.now.run.value 0 self.now.run.length ≡ None → result ≡ Ok tt }
        ensures after { (l : Entries) → Holds P.Permutation T.Table self.now.by table.old l
            → cancel_refusal l self.now.run.first self.now.run.value 0 self.now.run.length ≡ None
            → Holds P.Permutation T.Table self.now.by table.new (without_run self.now.run.first self.now.run.length l) }
        ensures len { length (T.Table.words table.new) ≡ length (T.Table.words table.old) }
        ensures fits { T.Table.fits table.new ≡ T.Table.fits table.old }
    {
        for i in 0..self.run.length {
            self.by
                .remove_key(table, self.run.first + i)
                .map_err(|_| Refusal::Unreached.at(i))?;
        }
        Ok(())
    }
}
