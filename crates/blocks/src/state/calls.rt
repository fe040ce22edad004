ghost use Rattle.std.specs.Prelude.{◌≡◌};
ghost use Rattle.table.specs.Meaning.{found, added, formed_anew, cleared, sized, entered, loaded, removed_from, admitted};
ghost use Rattle.blocks.specs.Means.{means, size};

use crate::kind::Blocks;
use crate::state::BlockTable;
use table::refusal::TableRefusal;
use table::words::zero;

impl<L: Blocks> BlockTable<L> {
    /// Forms the table anew, with empty slots, whatever it was before.
    pub fn form(&mut self, k: u32, v: u32, b: u32) -> Result<(), TableRefusal>
        ensures after { means self.new ≡ (formed_anew (L.layout.fits (size self.old)) (means self.old) k v b).0 }
        ensures value { result ≡ (formed_anew (L.layout.fits (size self.old)) (means self.old) k v b).1 }
        ensures len { size self.new ≡ size self.old }
    {
        let shape = L::shape_for(self.words.len(), k, v, b).ok_or(TableRefusal::DoesNotFit)?;
        zero(&mut self.words);
        self.shape = Some(shape);
        Ok(())
    }

    /// Makes the table unformed.
    pub fn clear(&mut self)
        ensures after { means self.new ≡ cleared (means self.old) }
        ensures len { size self.new ≡ size self.old }
    {
        zero(&mut self.words);
        self.shape = None;
    }

    /// Puts an entry at the end of a slot's list.
    pub fn add(&mut self, slot: u64, quotient: u64, value: u64) -> Result<(), TableRefusal>
        ensures after { means self.new ≡ (added L.layout.S L.layout.C (means self.old) slot quotient value).0 }
        ensures value { result ≡ (added L.layout.S L.layout.C (means self.old) slot quotient value).1 }
        ensures len { size self.new ≡ size self.old }
    {
        let at = self.spot(slot, quotient, value)?;
        self.slot_at(at).weigh(quotient, 0)?;
        L::put(
            &mut self.words[at.start..at.end],
            at.shape,
            at.slot,
            quotient,
            value,
        );
        Ok(())
    }

    /// Takes the entry of a quotient out of a slot, and gives its value.
    pub fn remove(&mut self, slot: u64, quotient: u64) -> Result<u64, TableRefusal>
        ensures after { means self.new ≡ (removed_from (means self.old) slot quotient).0 }
        ensures value { result ≡ (removed_from (means self.old) slot quotient).1 }
        ensures len { size self.new ≡ size self.old }
    {
        let at = self.spot(slot, quotient, 0)?;
        let i = L::place(&self.slot_at(at), quotient).ok_or(TableRefusal::Absent)?;
        Ok(L::take_out(&mut self.words[at.start..at.end], at.shape, at.slot, i))
    }

    /// The value of a quotient in a slot.
    pub fn find(&self, slot: u64, quotient: u64) -> Result<u64, TableRefusal>
        ensures value { result ≡ found (means self.now) slot quotient }
    {
        self.slot(slot, quotient, 0)?.find(quotient)
    }

    /// How many entries a slot holds.
    pub fn size(&self, slot: u64) -> Result<u64, TableRefusal>
        ensures value { result ≡ sized (means self.now) slot }
    {
        Ok(L::size(&self.slot(slot, 0, 0)?))
    }

    /// The entry at a place of a slot: quotient and value.
    pub fn entry(&self, slot: u64, i: u64) -> Result<(u64, u64), TableRefusal>
        ensures value { result ≡ entered (means self.now) slot i }
    {
        self.slot(slot, 0, 0)?.pick(i)
    }

    /// How many entries a slot's group holds.
    pub fn load(&self, slot: u64) -> Result<u64, TableRefusal>
        ensures value { result ≡ loaded L.layout.S (means self.now) slot }
    {
        Ok(L::load(&self.slot(slot, 0, 0)?))
    }

    /// What `add` would answer, were `earlier` more entries in the slot's group.
    pub fn admits(
        &self,
        slot: u64,
        quotient: u64,
        value: u64,
        earlier: u64,
    ) -> Result<(), TableRefusal>
        ensures value { result ≡ admitted L.layout.S L.layout.C (means self.now) slot quotient value earlier }
    {
        self.slot(slot, quotient, value)?.weigh(quotient, earlier)
    }

    /// Whether widths fit this table.
    pub fn fits(&self, k: u32, v: u32, b: u32) -> bool
        ensures value { result ≡ L.layout.fits (size self.now) k v b }
    {
        BlockTable::<L>::fits_in(self.words.len(), k, v, b)
    }
}
