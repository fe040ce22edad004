//! Unary marks of a group's slots in one word: from bit 0 up, each slot gives as many ones as it has entries, then one zero.
//! Every word is the marks of some sizes without end; which words are those of a number of slots is what `is_marks` tells.
ghost use Rattle.std.specs.Prelude.{◌≡◌, ℕ, ◌+◌, ◌%◌, ◌^◌, ◌≤◌, min, MatchBool, count_ones};
ghost use Rattle.bits.specs.Marks.{entries_before, begins, ends, size_of, one_more, one_less, Marked};

// The functions take a word, and no struct round one: the word stands in a table's memory, and each call would wrap it and take it out again.

/// The number of bits in a mark word.
const BITS: u64 = 64;

/// The group's load: how many entries its slots have together.
pub fn load(word: u64) -> u64
    ensures value { result ≡ count_ones word }
    ensures bound { result ≤ 64 }
{
    word.count_ones() as u64
}

/// Where the marks of `slot` end: the place of its zero, 64 where that is past the word.
pub fn end(word: u64, slot: u64) -> u64
    ensures value { result ≡ min (ends slot word) 64 }
    ensures bound { result ≤ 64 }
{
    let mut at = 0;
    // A for that ends early: a try_fold carries the same place and the same two ends in its closure, and is no plainer.
    for _slot in 0..slot {
        at += (word >> at).trailing_ones() as u64 + 1;
        if at >= BITS {
            return BITS;
        }
    }
    at + (word >> at).trailing_ones() as u64
}

/// Where the marks of `slot` begin, 64 where that is past the word.
pub fn begin(word: u64, slot: u64) -> u64
    ensures value { result ≡ min (begins slot word) 64 }
    ensures bound { result ≤ 64 }
{
    if slot == 0 {
        return 0;
    }
    (end(word, slot - 1) + 1).min(BITS)
}

/// How many entries `slot` has.
pub fn size(word: u64, slot: u64) -> u64
    ensures value { result ≡ size_of slot word }
    ensures bound { result ≤ 64 }
{
    end(word, slot) - begin(word, slot)
}

/// How many entries the slots before `slot` have together: the ones below its marks.
pub fn before(word: u64, slot: u64) -> u64
    ensures value { result ≡ entries_before slot word }
    ensures bound { result ≤ 64 }
{
    load(low(word, begin(word, slot)))
}

/// The bits of `word` below bit `at`.
fn low(word: u64, at: u64) -> u64
    ensures { result ≡ word % 2 ^ at }
{
    if at >= BITS {
        return word;
    }
    word & ((1 << at) - 1)
}

/// The marks with one entry more in `slot`; what then passes bit 63 is dropped.
pub fn add(word: u64, slot: u64) -> u64
    ensures { result ≡ one_more slot word % 2 ^ 64 }
{
    let at = begin(word, slot);
    if at >= BITS {
        return word;
    }
    let under = low(word, at);
    (word - under) << 1 | 1 << at | under
}

/// The marks with one entry less in `slot`; an empty slot stays empty.
pub fn remove(word: u64, slot: u64) -> u64
    ensures { result ≡ one_less slot word }
{
    if size(word, slot) == 0 {
        return word;
    }
    let first = begin(word, slot);
    let under = low(word, first);
    (word >> first >> 1) << first | under
}

/// Whether `word` is the marks of some sizes of `slots` slots, of at most `limit` entries in all.
pub fn is_marks(word: u64, slots: u64, limit: u64) -> bool
    ensures { MatchBool result (Marked slots limit word) (Marked slots limit word → ⊥) }
{
    low(word, begin(word, slots)) == word && load(word) <= limit
}
