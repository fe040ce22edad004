//! Whether an area is zero from a bit on.
ghost use Rattle.std.specs.Prelude.{◌≡◌, ◌/◌, ◌^◌, ◌==◌, Decides, drop};
ghost use Rattle.std.specs.List.{list_all};
ghost use Rattle.bits.specs.Area.{number};

use crate::words::{WORD, word_at};

/// Whether every bit of `area` from bit `from` up is zero.
pub fn is_zero_from(area: &[u64], from: u64) -> bool
    ensures { Decides result (number area.now / 2 ^ from ≡ 0) }
{
    let word = from / WORD as u64;
    let bit = from % WORD as u64;
    word_at(area, word as u128) >> bit == 0 && are_zero_from(area, word as usize + 1)
}

/// Whether every word of `area` from word `first` on is zero.
fn are_zero_from(area: &[u64], first: usize) -> bool
    ensures { result ≡ list_all (λ word. word == 0) (drop first area.now) }
{
    are_zero(&area[first.min(area.len())..])
}

/// Whether all words are zero.
fn are_zero(words: &[u64]) -> bool
    ensures { result ≡ list_all (λ word. word == 0) words.now }
{
    words.iter().all(|word| *word == 0)
}
