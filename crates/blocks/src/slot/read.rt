ghost use Rattle.std.specs.Prelude.{◌≡◌, ◌+◌};
ghost use Rattle.table.specs.Meaning.{total, value_in, answer_of, picked, weigh_held};
ghost use Rattle.blocks.specs.Slots.{group_in, entries_in};

use crate::kind::Blocks;
use crate::slot::Slot;
use table::refusal::TableRefusal;

impl<L: Blocks> Slot<'_, L> {
    /// The value of a quotient in the slot.
    pub(crate) fn find(&self, quotient: u64) -> Result<u64, TableRefusal>
        ensures value { result ≡ answer_of (value_in (entries_in self.now) quotient) }
    {
        let i = L::place(self, quotient).ok_or(TableRefusal::Absent)?;
        Ok(L::entry(self, i).1)
    }

    /// The entry at a place of the slot.
    pub(crate) fn pick(&self, i: u64) -> Result<(u64, u64), TableRefusal>
        ensures value { result ≡ picked (entries_in self.now) i }
    {
        if i >= L::size(self) {
            return Err(TableRefusal::OutOfRange);
        }
        Ok(L::entry(self, i))
    }

    /// What stands against one more entry in the slot, were `earlier` more in the group.
    pub(crate) fn weigh(&self, quotient: u64, earlier: u64) -> Result<(), TableRefusal>
        ensures value { result ≡ weigh_held L.layout.C (total (group_in self.now) + earlier) (value_in (entries_in self.now) quotient) }
    {
        if L::place(self, quotient).is_some() {
            return Err(TableRefusal::Held);
        }
        if L::load(self).saturating_add(earlier) >= L::limit() {
            return Err(TableRefusal::Full);
        }
        Ok(())
    }
}
