ghost use Rattle.std.specs.Prelude.{◌≡◌, ◌-◌, ◌/◌, ◌%◌, ◌^◌, ◌<◌, map, length, None, Decides};
ghost use Rattle.table.specs.Meaning.{Good, value_in};
ghost use Rattle.table.specs.Checking.{Given};
ghost use Rattle.blocks.specs.PlainLayout.{entry_of, plain};

use crate::plain::block;
use crate::plain::block::{LIMIT, RADIX};
use table::shape::Shape;
use table::words::all_zero;

/// Whether a word's entry is in range, and its quotient none of the earlier words'.
fn good_after(earlier: &[u64], word: u64, shape: Shape) -> bool
    ensures value { Decides result ((word % 2 ^ 32 < 2 ^ (shape.k - shape.b)) × (word / 2 ^ 32 < 2 ^ shape.v) × (value_in (map entry_of earlier.now) (word % 2 ^ 32) ≡ None)) }
{
    let quotient = word % RADIX;
    if quotient >= 1u64 << (shape.k - shape.b) {
        return false;
    }
    if word / RADIX >= 1u64 << shape.v {
        return false;
    }
    block::place(earlier, quotient).is_none()
}

/// Whether the words of entries are in range and their quotients apart.
pub(crate) fn entries_good(entries: &[u64], shape: Shape) -> bool
    ensures value { Decides result (Good (shape.k - shape.b) shape.v (map entry_of entries.now)) }
{
    entries
        .iter()
        .enumerate()
        .all(|(i, word)| good_after(&entries[..i], *word, shape))
}

/// Whether some content gives this block.
pub(crate) fn is_given(block: &[u64], shape: Shape) -> bool
    requires { length block.now ≡ 16 }
    ensures value { Decides result (Given plain shape.k shape.v shape.b block.now) }
{
    let count = block[0];
    if count > LIMIT {
        return false;
    }
    if !all_zero(&block[1 + count as usize..]) {
        return false;
    }
    entries_good(&block[1..1 + count as usize], shape)
}
