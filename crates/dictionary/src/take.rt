ghost use Rattle.std.specs.Prelude.{◌≡◌, ℕ, ◌+◌, ◌/◌, ◌^◌, ◌<◌, ◌≤◌, ◌++◌, length, None, Ok, Err};
ghost use Rattle.table.specs.Meaning.{value_in};
ghost use Rattle.model.specs.declared.run_refusal.RunRefusal.{RunRefusal as Refused};
ghost use Rattle.model.specs.Entries.{Entries, run_of, group_load, take_one, take_refusal};
ghost use Rattle.dictionary.specs.Stored.{Holds, slot_by};
ghost use Rattle.dictionary.specs.Results.{take_judged, reply, list_after};

use crate::addressing::Addressing;
use crate::reached::Reached;
use crate::run::Run;
use model::refusal::Refusal;
use model::run_refusal::RunRefusal;
use permutation::Permutation;
use table::refusal::TableRefusal;
use table::table::Table;

impl<'a, P: Permutation> Addressing<'a, P> {
    /// Takes the keys of a run under its value, all of them or none.
    pub fn take_run<T: Table>(&self, table: &mut T, run: Run) -> Result<(), RunRefusal>
        ensures value { (l : Entries) → Holds P.Permutation T.Table self.now table.old l
            → result ≡ reply (take_judged (slot_by P.Permutation self.now) T.Table.group T.Table.limit self.now.shape.k self.now.shape.v l run.first run.length run.value) }
        ensures after { (l : Entries) → Holds P.Permutation T.Table self.now table.old l
            → Holds P.Permutation T.Table self.now table.new (list_after l (l ++ run_of run.first run.value run.length)
            (take_judged (slot_by P.Permutation self.now) T.Table.group T.Table.limit self.now.shape.k self.now.shape.v l run.first run.length run.value)) }
        ensures kept { (l : Entries) → Holds P.Permutation T.Table self.now table.old l → (e : Refused) → result ≡ Err e → table.new ≡ table.old }
        ensures len { length (T.Table.words table.new) ≡ length (T.Table.words table.old) }
        ensures fits { T.Table.fits table.new ≡ T.Table.fits table.old }
    {
        let reached = self.reached(run);
        reached.may_take(table)?;
        reached.covers(run.length)?;
        reached.take(table)
    }

    // One key number into the table.
    pub(crate) fn add_key<T: Table>(
        &self,
        table: &mut T,
        m: u64,
        w: u64,
    ) -> Result<(), TableRefusal>
        ensures value { (l : Entries) → Holds P.Permutation T.Table self.now table.old l → m < 2 ^ self.now.shape.k → w < 2 ^ self.now.shape.v
            → take_one (slot_by P.Permutation self.now) T.Table.group T.Table.limit l m (value_in l m) ≡ None → result ≡ Ok tt }
        ensures after { (l : Entries) → Holds P.Permutation T.Table self.now table.old l → m < 2 ^ self.now.shape.k → w < 2 ^ self.now.shape.v
            → take_one (slot_by P.Permutation self.now) T.Table.group T.Table.limit l m (value_in l m) ≡ None
            → Holds P.Permutation T.Table self.now table.new (l ++ run_of m w 1) }
        ensures len { length (T.Table.words table.new) ≡ length (T.Table.words table.old) }
        ensures fits { T.Table.fits table.new ≡ T.Table.fits table.old }
    {
        let place = self.place(m);
        table.add(place.slot, place.quotient, w)
    }
}

impl<'a, P: Permutation> Reached<'a, P> {
    // How many of the first i keys have their slot in the group of `slot`, in groups of `size` slots.
    fn earlier(&self, size: u64, i: u64, slot: u64) -> u64
        requires { (i ≤ self.now.run.length) × (0 < size) }
        ensures { result ≡ group_load (slot_by P.Permutation self.now.by) size (run_of self.now.run.first self.now.run.value i) (slot / size) }
    {
        let group = slot / size;
        (0..i)
            .filter(|j| self.by.place(self.run.first + *j).slot / size == group)
            .count() as u64
    }

    // What stands against key i, after those before it, none of which the table holds yet.
    fn may_take_at<T: Table>(&self, table: &T, i: u64) -> Result<(), Refusal>
        requires { i < self.now.run.length }
        ensures { (l : Entries) → Holds P.Permutation T.Table self.now.by table.now l
            → result ≡ reply (take_one (slot_by P.Permutation self.now.by) T.Table.group T.Table.limit (l ++ run_of self.now.run.first self.now.run.value i)
            (self.now.run.first + i) (value_in (l ++ run_of self.now.run.first self.now.run.value i) (self.now.run.first + i))) }
    {
        let place = self.by.place(self.run.first + i);
        let earlier = self.earlier(table.group(), i, place.slot);
        table.admits(place.slot, place.quotient, self.run.value, earlier)?;
        Ok(())
    }

    // What stands against the run, at the first of its keys that is refused.
    fn may_take<T: Table>(&self, table: &T) -> Result<(), RunRefusal>
        ensures { (l : Entries) → Holds P.Permutation T.Table self.now.by table.now l
            → result ≡ reply (take_refusal (slot_by P.Permutation self.now.by) T.Table.group T.Table.limit l self.now.run.first self.now.run.value 0 self.now.run.length) }
    {
        for i in 0..self.run.length {
            self.may_take_at(table, i).map_err(|why| why.at(i))?;
        }
        Ok(())
    }

    // The keys into the table, after `may_take` has found nothing against them.
    fn take<T: Table>(&self, table: &mut T) -> Result<(), RunRefusal>
        ensures value { (l : Entries) → Holds P.Permutation T.Table self.now.by table.old l
            → take_refusal (slot_by P.Permutation self.now.by) T.Table.group T.Table.limit l self.now.run.first self.now.run.value 0 self.now.run.length ≡ None → result ≡ Ok tt }
        ensures after { (l : Entries) → Holds P.Permutation T.Table self.now.by table.old l
            → take_refusal (slot_by P.Permutation self.now.by) T.Table.group T.Table.limit l self.now.run.first self.now.run.value 0 self.now.run.length ≡ None
            → Holds P.Permutation T.Table self.now.by table.new (l ++ run_of self.now.run.first self.now.run.value self.now.run.length) }
        ensures len { length (T.Table.words table.new) ≡ length (T.Table.words table.old) }
        ensures fits { T.Table.fits table.new ≡ T.Table.fits table.old }
    {
        for i in 0..self.run.length {
            self.by
                .add_key(table, self.run.first + i, self.run.value)
                .map_err(|_| Refusal::Unreached.at(i))?;
        }
        Ok(())
    }
}
