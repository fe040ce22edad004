ghost use Rattle.std.specs.Prelude.{◌≡◌, ◌%◌, ◌^◌, ◌<◌, ◌≤◌, Some};
ghost use Rattle.expected.specs.Blocks.{entry_word, plain_word};
ghost use Rattle.expected.specs.Kinds.{block, word};

use crate::kind::Kind;
use crate::numbers::area;
use crate::packed_words::packed_word;

/// An entry of a table: its slot, and what stands there.
#[derive(Clone, Copy, PartialEq, Eq, Debug)]
pub struct Entry {
    pub slot: u64,
    pub quotient: u64,
    pub value: u64,
}

/// How the entries of a table stand in its words: its kind, and how many bits quotients and values have.
#[derive(Clone, Copy, PartialEq, Eq, Debug)]
pub struct Layout {
    pub kind: Kind,
    pub quotient: u32,
    pub value: u32,
}

impl Entry {
    /// The word of the entry in a plain table: 32 bits of its quotient, and above them 32 of its value.
    pub fn word(&self) -> u64
        ensures value { result ≡ entry_word (Some self.now) }
    {
        lowest(self.quotient, 32) + lowest(self.value, 32) * (1 << 32)
    }
}

// The lowest bits of a number, so many of them, one after the other.
fn lowest(n: u64, width: u32) -> u64
    requires { width ≤ 32 }
    ensures value { result ≡ n % 2 ^ width }
    ensures bound { result < 2 ^ 32 }
{
    let mut low = 0u64;
    for i in 0..width {
        if (n >> i) % 2 == 1 {
            low += 1 << i;
        }
    }
    low
}

// The word at a place of a plain block: the number of the slot's entries, then a word to each.
fn plain_word(slot: &[Entry], place: u64) -> u64
    ensures { result ≡ plain_word slot.now place }
{
    match place.checked_sub(1) {
        None => slot.len() as u64,
        Some(i) => slot.get(i as usize).map_or(0, |e| e.word()),
    }
}

impl Layout {
    /// How many words a group's block has.
    pub fn block(self) -> u64
        ensures value { result ≡ block self.kind self.quotient self.value }
    {
        match self.kind {
            Kind::Plain => 16,
            Kind::Packed => 1 + area(self.quotient) + area(self.value),
        }
    }

    /// The word at a place of a group's block, of the group's entries, slots upwards.
    pub fn word(self, entries: &[Entry], place: u64) -> u64
        ensures value { result ≡ word self.kind self.quotient self.value entries.now place }
    {
        match self.kind {
            Kind::Plain => plain_word(entries, place),
            Kind::Packed => packed_word(self.quotient, self.value, entries, place),
        }
    }
}
