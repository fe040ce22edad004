//! A plain list of entries, and what each call answers by it.
use expected::layout::{Entry, Layout};
use expected::numbers::times;
use std::alloc::{AllocError, Global};
use table::refusal::TableRefusal;

/// The entries that a table should hold, slots upwards and each in order of arrival, and how they stand in its words.
#[derive(Drop)]
pub struct Content {
    pub entries: Vec<Entry>,
    pub layout: Layout,
}

impl Content {
    /// No entries.
    pub fn new(heap: Global, layout: Layout) -> Content {
        Content {
            entries: Vec::new(heap),
            layout,
        }
    }

    /// No entries any more, in words of other widths.
    pub fn formed(&mut self, layout: Layout) {
        self.entries.clear();
        self.layout = layout;
    }

    /// The value of a quotient in a slot.
    pub fn find(&self, slot: u64, quotient: u64) -> Result<u64, TableRefusal> {
        self.entries
            .iter()
            .find(|e| e.slot == slot && e.quotient == quotient)
            .map(|e| e.value)
            .ok_or(TableRefusal::Absent)
    }

    /// How many entries the slot's group holds.
    pub fn load(&self, slot: u64) -> u64 {
        let group = |slot: u64| times(slot, self.layout.kind.group());
        let own = group(slot);
        self.entries.iter().filter(|e| group(e.slot) == own).count() as u64
    }

    /// How many entries the slot holds.
    pub fn size(&self, slot: u64) -> u64 {
        self.entries.iter().filter(|e| e.slot == slot).count() as u64
    }

    /// What stands against one more entry.
    pub fn admits(&self, slot: u64, quotient: u64) -> Result<(), TableRefusal> {
        if self.find(slot, quotient).is_ok() {
            return Err(TableRefusal::Held);
        }
        if self.load(slot) >= self.layout.kind.limit() {
            return Err(TableRefusal::Full);
        }
        Ok(())
    }

    /// Adds an entry, after those of its slot.
    pub fn add(&mut self, entry: Entry) -> Result<(), AllocError> {
        let place = self.entries.partition_point(|e| e.slot <= entry.slot);
        self.entries.insert(place, entry)?;
        Ok(())
    }

    /// Takes an entry out.
    pub fn remove(&mut self, slot: u64, quotient: u64) {
        self.entries
            .retain(|e| e.slot != slot || e.quotient != quotient);
    }
}
