ghost use Rattle.std.specs.Prelude.{◌≡◌, ◌+◌, ◌*◌, ◌/◌, ◌%◌, ◌^◌, ◌<◌, slice_get};
ghost use Rattle.std.specs.Option.{option_map};
ghost use Rattle.expected.specs.Blocks.{field_bit, has_bit, is_mark, number, packed_block, packed_word};
ghost use Rattle.expected.specs.Fields.{field_of};

use crate::layout::Entry;
use crate::numbers::{area, rest, times};

// The numbers of an entry that stand in fields.
#[derive(Clone, Copy)]
enum Field {
    Quotient,
    Value,
}

impl Field {
    // That of an entry.
    fn of(self, e: &Entry) -> u64
        ensures { result ≡ field_of self e.now }
    {
        match self {
            Field::Quotient => e.quotient,
            Field::Value => e.value,
        }
    }

    // That of the entry at a place, where there is one.
    fn at(self, group: &[Entry], place: usize) -> Option<u64>
        ensures { result ≡ option_map (λ e. field_of self e) (slice_get group.now place) }
    {
        group.get(place).map(|e| self.of(e))
    }
}

// Whether bit i of a number is one.
fn has_bit(n: u64, i: u64) -> bool
    ensures { result ≡ has_bit n i }
{
    i < 64 && (n >> i) % 2 == 1
}

// The word of marks: the mark of entry t, in slot j of the group, is bit j + t.
fn marks(group: &[Entry]) -> u64
    ensures { result ≡ number (λ i. is_mark group.now i) 64 }
{
    let mut word = 0u64;
    for (t, e) in group.iter().enumerate() {
        let mark = (t as u64).saturating_add(e.slot % 16);
        if mark < 64 {
            word |= 1 << mark;
        }
    }
    word
}

// The 64 bits from one on of an area of fields of a width: field u / width has bit u, as its bit u % width.
fn field_bits(group: &[Entry], field: Field, width: u64, first: u64) -> u64
    requires { first + 64 < 2 ^ 64 }
    ensures { result ≡ number (λ i. field_bit (λ e. field_of field e) (slice_get group.now ((first + i) / width)) ((first + i) % width)) 64 }
{
    let mut place = times(first, width) as usize;
    let mut bit = rest(first, width);
    let mut number = field.at(group, place);
    let mut word = 0u64;
    for i in 0..64u64 {
        let Some(n) = number else {
            return word;
        };
        word += u64::from(has_bit(n, bit)) << i;
        bit += 1;
        if bit == width {
            place += 1;
            bit = 0;
            number = field.at(group, place);
        }
    }
    word
}

/// The word at a place of a packed block, of the group's entries, slots upwards, with quotients of q bits and values of v.
pub(crate) fn packed_word(q: u32, v: u32, group: &[Entry], place: u64) -> u64
    ensures { result ≡ packed_word q v group.now place }
{
    if place >= 1 + area(q) + area(v) {
        return 0;
    }
    let values = 1 + area(q);
    if place == 0 {
        return marks(group);
    }
    if place < values {
        return field_bits(group, Field::Quotient, u64::from(q), 64 * (place - 1));
    }
    field_bits(group, Field::Value, u64::from(v), 64 * (place - values))
}
