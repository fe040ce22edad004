ghost use Rattle.std.specs.Prelude.{◌≡◌};
ghost use Rattle.expected.specs.Held.{entry_of, load_of, value_of};

use crate::layout::Entry;
use crate::numbers::{rest, times};

/// A key number, its value number, and its permuted number.
#[derive(Clone, Copy, PartialEq, Eq, Debug)]
pub struct Held {
    pub key: u64,
    pub value: u64,
    pub mixed: u64,
}

impl Held {
    /// Where it stands in a table whose slots have so many quotients.
    pub fn entry(&self, quotients: u64) -> Entry
        ensures value { result ≡ entry_of self.now quotients }
    {
        Entry {
            slot: times(self.mixed, quotients),
            quotient: rest(self.mixed, quotients),
            value: self.value,
        }
    }
}

/// The value number of a key number.
pub fn value(list: &[Held], key: u64) -> Option<u64>
    ensures value { result ≡ value_of list.now key }
{
    list.iter().find(|e| e.key == key).map(|e| e.value)
}

/// How many stand in the group of a permuted number, of so many permuted numbers each.
pub fn load(list: &[Held], size: u64, mixed: u64) -> u64
    ensures value { result ≡ load_of list.now size mixed }
{
    let group = times(mixed, size);
    list.iter()
        .filter(|e| times(e.mixed, size) == group)
        .count() as u64
}
