ghost use Rattle.std.specs.Prelude.{◌≡◌, ℕ, ◌/◌, ◌<◌, ◌≤◌, ◌==◌, nat_lt, length, take_while};
ghost use Rattle.std.specs.List.{list_all, enumerate_from};
ghost use Rattle.expected.specs.Kinds.{group, block, word};
ghost use Rattle.expected.specs.Words.{part, word_at};

use crate::clear::is_clear;
use crate::layout::{Entry, Layout};
use crate::numbers::{rest, times};

// How many entries at the front are in lower groups.
fn lower(entries: &[Entry], size: u64, g: u64) -> usize
    ensures value { result ≡ length (take_while (λ e. nat_lt (e.slot / size) g) entries.now) }
    ensures bound { result ≤ length entries.now }
{
    entries
        .iter()
        .take_while(|e| times(e.slot, size) < g)
        .count()
}

// How many entries at the front are in a group.
fn own(entries: &[Entry], size: u64, g: u64) -> usize
    ensures value { result ≡ length (take_while (λ e. e.slot / size == g) entries.now) }
    ensures bound { result ≤ length entries.now }
{
    entries
        .iter()
        .take_while(|e| times(e.slot, size) == g)
        .count()
}

// The entries of a group, and what comes after them, among entries in order of their slots.
fn cut(entries: &[Entry], size: u64, g: u64) -> (&[Entry], &[Entry])
    ensures own { result.0.now ≡ part entries.now size g }
    ensures after { (h : ℕ) → g < h → part result.1.now size h ≡ part entries.now size h }
{
    let others = &entries[lower(entries, size, g)..];
    others.split_at(own(others, size, g))
}

/// The entries of a group, among entries in order of their slots.
pub fn part(entries: &[Entry], size: u64, g: u64) -> &[Entry]
    ensures value { result.now ≡ part entries.now size g }
{
    cut(entries, size, g).0
}

impl Layout {
    /// The word at an index of a table, of entries in order of their slots.
    pub fn word_at(self, entries: &[Entry], index: usize) -> u64
        ensures value { result ≡ word_at (word self.kind self.quotient self.value) (group self.kind) (block self.kind self.quotient self.value) entries.now index }
    {
        let block = self.block();
        let group = part(entries, self.kind.group(), times(index as u64, block));
        self.word(group, rest(index as u64, block))
    }

    // Whether words are those of a group's block, of the group's entries.
    fn has_block(self, group: &[Entry], words: &[u64]) -> bool
        ensures { result ≡ list_all (λ p. word self.kind self.quotient self.value group.now p.0 == p.1) (enumerate_from 0 words.now) }
    {
        if group.is_empty() {
            return is_clear(words);
        }
        words
            .iter()
            .enumerate()
            .all(|(place, word)| self.word(group, place as u64) == *word)
    }

    /// Whether words are those of entries in order of their slots.
    pub fn has_words(self, entries: &[Entry], words: &[u64]) -> bool
        ensures value { result ≡ list_all (λ p. word_at (word self.kind self.quotient self.value) (group self.kind) (block self.kind self.quotient self.value) entries.now p.0 == p.1) (enumerate_from 0 words.now) }
    {
        let mut others = entries;
        for (g, words) in words.chunks(self.block() as usize).enumerate() {
            let (group, after) = cut(others, self.kind.group(), g as u64);
            if !self.has_block(group, words) {
                return false;
            }
            others = after;
        }
        true
    }
}
