//! Damaged words of each kind: what a check reports, and what keep makes of them.
use crate::refused::is;
use crate::tried::Tried;
use crate::widths::Widths;
use expected::clear::is_clear;
use expected::layout::Entry;
use std::io;
use std::marker::PhantomData;
use table::check_refusal::CheckRefusal;
use table::refusal::TableRefusal;
use tally::tally::Tally;

/// The sound words of a table of some widths, and the cases that were tried of them.
#[derive(Drop)]
pub struct Damage<T: Tried> {
    words: Vec<u64>,
    widths: Widths,
    tally: Tally,
    of: PhantomData<T>,
}

impl<T: Tried> Damage<T> {
    /// So many words that hold entries, which are in order of their slots.
    pub fn new(
        rt: &HostRuntime,
        words: usize,
        widths: Widths,
        entries: &[Entry],
    ) -> io::Result<Damage<T>> {
        let layout = widths.layout::<T>();
        let mut words = vec![in rt.alloc(); 0u64; words]?;
        for (i, word) in words.iter_mut().enumerate() {
            *word = layout.word_at(entries, i);
        }
        Ok(Damage {
            words,
            widths,
            tally: Tally::new(),
            of: PhantomData,
        })
    }

    /// Prints the cases, and begins anew.
    pub fn show(&mut self, rt: &HostRuntime, what: &str) -> io::Result<()> {
        self.tally.show(rt, what)?;
        self.tally = Tally::new();
        Ok(())
    }

    /// Sound words pass, and keep forms a table of them that finds these of their entries.
    pub fn kept(&mut self, entries: &[Entry]) -> io::Result<()> {
        let passes = is(T::checked(&self.words, self.widths), Ok(()));
        let table = T::kept(self.words.clone()?, self.widths);
        let found = entries
            .iter()
            .all(|e| is(table.find(e.slot, e.quotient), Ok(e.value)));
        let same = self.words.as_slice() == table.shown();
        self.tally.count(passes && found && same);
        Ok(())
    }

    /// One word changed: a check names the block, and keep gives an unformed table of zeros.
    pub fn wrong(&mut self, place: usize, word: u64, block: u64) -> io::Result<()> {
        let mut words = self.words.clone()?;
        if let Some(there) = words.get_mut(place) {
            *there = word;
        }
        let named = is(
            T::checked(&words, self.widths),
            Err(CheckRefusal::WrongBlock(block)),
        );
        let table = T::kept(words, self.widths);
        let unformed = is(table.size(0), Err(TableRefusal::Unformed));
        self.tally
            .count(named && unformed && is_clear(table.shown()));
        Ok(())
    }

    /// The same of one bit more, counted from a word on.
    pub fn wrong_bit(&mut self, place: usize, bit: u32, block: u64) -> io::Result<()> {
        let place = place.saturating_add((bit / 64) as usize);
        let word = self.words.get(place).copied().unwrap_or(0);
        self.wrong(place, word | 1 << (bit % 64), block)
    }

    /// Widths that do not fit words: keep gives an unformed table of zeros.
    pub fn unfit(&mut self, words: Vec<u64>, widths: Widths) {
        let refused = is(T::checked(&words, widths), Err(CheckRefusal::DoesNotFit));
        let table = T::kept(words, widths);
        let fits = table.fits(widths.k, widths.v, widths.b);
        self.tally
            .count(refused && is_clear(table.shown()) && !fits);
    }

    /// Widths that do not fit the sound words.
    pub fn unfit_too(&mut self, widths: Widths) -> io::Result<()> {
        let words = self.words.clone()?;
        self.unfit(words, widths);
        Ok(())
    }

    /// Widths that fit words, which are those of empty slots.
    pub fn empty(&mut self, words: Vec<u64>, widths: Widths) {
        let passes = is(T::checked(&words, widths), Ok(()));
        let table = T::kept(words, widths);
        let size = is(table.size(0), Ok(0));
        let fits = table.fits(widths.k, widths.v, widths.b);
        self.tally.count(passes && size && fits);
    }
}
