//! A table beside the plain list of entries that it should hold; after each call the words are compared.
use crate::content::Content;
use crate::refused::is;
use crate::tried::Tried;
use crate::widths::Widths;
use expected::layout::Entry;
use std::io;
use table::refusal::TableRefusal;
use tally::tally::Tally;

/// The table, how many words it has, the list, and how often a slot held the quotient and a group was full.
#[derive(Drop)]
pub struct Pair<T: Tried> {
    table: T,
    words: usize,
    pub content: Content,
    pub tally: Tally,
    pub held: u64,
    pub full: u64,
}

impl<T: Tried> Pair<T> {
    /// An unformed table over so many words, which were not zero.
    pub fn new(rt: &HostRuntime, words: usize) -> io::Result<Pair<T>> {
        Ok(Pair {
            table: T::over(vec![in rt.alloc(); 7u64; words]?),
            words,
            content: Content::new(rt.alloc(), Widths { k: 0, v: 0, b: 0 }.layout::<T>()),
            tally: Tally::new(),
            held: 0,
            full: 0,
        })
    }

    /// Counts a case that came out right where this holds and the table's words, all of them, are those of the entries.
    fn count(&mut self, right: bool) {
        let shown = self.table.shown();
        let same = self.content.layout.has_words(&self.content.entries, shown);
        self.tally.count(right && same && shown.len() == self.words);
    }

    /// Forms the table, and expects this.
    pub fn form(&mut self, k: u32, v: u32, b: u32, want: Result<(), TableRefusal>) {
        let got = self.table.form(k, v, b);
        if want.is_ok() {
            self.content.formed(Widths { k, v, b }.layout::<T>());
        }
        self.count(is(got, want));
    }

    /// Adds an entry, and expects this.
    pub fn add(
        &mut self,
        slot: u64,
        quotient: u64,
        value: u64,
        want: Result<(), TableRefusal>,
    ) -> io::Result<()> {
        let before = self.table.admits(slot, quotient, value, 0);
        let got = self.table.add(slot, quotient, value);
        match want {
            Ok(()) => self.content.add(Entry {
                slot,
                quotient,
                value,
            })?,
            Err(TableRefusal::Held) => self.held = self.held.saturating_add(1),
            Err(TableRefusal::Full) => self.full = self.full.saturating_add(1),
            Err(_) => {}
        }
        self.count(is(got, want) && is(before, want));
        Ok(())
    }

    /// Adds an entry, and expects what the list answers.
    pub fn put(&mut self, slot: u64, quotient: u64, value: u64) -> io::Result<()> {
        let want = self.content.admits(slot, quotient);
        self.add(slot, quotient, value, want)
    }

    /// Removes an entry, and expects this.
    pub fn remove(&mut self, slot: u64, quotient: u64, want: Result<u64, TableRefusal>) {
        let found = self.table.find(slot, quotient);
        let got = self.table.remove(slot, quotient);
        if want.is_ok() {
            self.content.remove(slot, quotient);
        }
        self.count(is(got, want) && is(found, want));
    }

    /// Removes an entry, and expects what the list answers.
    pub fn take_out(&mut self, slot: u64, quotient: u64) {
        let want = self.content.find(slot, quotient);
        self.remove(slot, quotient, want);
    }

    /// Asks for a slot's size, and expects this.
    pub fn size(&mut self, slot: u64, want: Result<u64, TableRefusal>) {
        let got = self.table.size(slot);
        self.tally.count(is(got, want));
    }

    /// Compares the size of a slot and the load of its group with the list's.
    pub fn sizes(&mut self, slot: u64) {
        let size = is(self.table.size(slot), Ok(self.content.size(slot)));
        let load = is(self.table.load(slot), Ok(self.content.load(slot)));
        self.tally.count(size && load);
    }

    /// Asks for the entry at a place, and expects this quotient and value.
    pub fn entry(&mut self, slot: u64, i: u64, want: Result<(u64, u64), TableRefusal>) {
        let got = self.table.entry(slot, i);
        self.tally.count(is(got, want));
    }
}
