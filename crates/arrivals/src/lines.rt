//! Reading a line: its words, the numbers that they write, and the stay that four numbers make.
ghost use Rattle.std.specs.Prelude.{◌≡◌, ◌≤◌, length};
ghost use Rattle.std.specs.List.{position_or_len};
ghost use Rattle.arrivals.specs.Lines.{is_blank as blank_byte, skipped, word, after, nth_word, digit_after, decimal, field_of, stay_of};

use crate::stay::{Field, LineFault, Stay};

/// Whether a byte parts words: a space, a tab or a carriage return.
fn is_blank(byte: u8) -> bool
    ensures value { result ≡ blank_byte byte }
{
    matches!(byte, b' ' | b'\t' | b'\r')
}

/// A text without its blank front.
fn skipped(text: &[u8]) -> &[u8]
    ensures value { result.now ≡ skipped text.now }
{
    let blanks = text.iter().position(|byte| !is_blank(*byte));
    &text[blanks.unwrap_or(text.len())..]
}

/// How many bytes of a text stand before its first blank.
fn word_len(text: &[u8]) -> usize
    ensures value { result ≡ position_or_len blank_byte text.now }
    ensures bound { result ≤ length text.now }
{
    let size = text.iter().position(|byte| is_blank(*byte));
    size.unwrap_or(text.len())
}

/// The first word of a text.
fn first_word(text: &[u8]) -> &[u8]
    ensures value { result.now ≡ word (skipped text.now) }
{
    let rest = skipped(text);
    &rest[..word_len(rest)]
}

/// What follows the first word of a text.
fn past_word(text: &[u8]) -> &[u8]
    ensures value { result.now ≡ after (skipped text.now) }
{
    let rest = skipped(text);
    &rest[word_len(rest)..]
}

// The words are passed over one after the other: `split` with a filter for the empty parts between blanks takes more than twice the time.
/// The word at a place of a line, the first being 0; an empty one where there are too few.
fn word_at(line: &[u8], place: u64) -> &[u8]
    ensures value { result.now ≡ nth_word line.now place }
{
    let mut rest = line;
    for i in 0..place {
        rest = past_word(rest);
    }
    first_word(rest)
}

/// The number that the digits of `n` and one more write, if it is a digit and the number is below 2^64.
fn digit_after(n: u64, byte: u8) -> Option<u64>
    ensures value { result ≡ digit_after n byte }
{
    if !byte.is_ascii_digit() {
        return None;
    }
    n.checked_mul(10)?.checked_add(u64::from(byte - b'0'))
}

/// The number that a word writes in base ten, if all of it is digits and it is below 2^64.
fn number(text: &[u8]) -> Option<u64>
    ensures value { result ≡ decimal text.now }
{
    text.iter().try_fold(0, |n, byte| digit_after(n, *byte))
}

/// One number of a line.
fn field(line: &[u8], place: u64, name: Field) -> Result<u64, LineFault>
    ensures value { result ≡ field_of line.now place name }
{
    let text = word_at(line, place);
    if text.is_empty() {
        return Err(LineFault::Missing(name));
    }
    number(text).ok_or(LineFault::NotANumber(name))
}

/// The stay that a line writes; none where the line is blank or begins with `#`.
pub fn read_stay(line: &[u8]) -> Result<Option<Stay>, LineFault>
    ensures value { result ≡ stay_of line.now }
{
    if matches!(word_at(line, 0), [] | [b'#', ..]) {
        return Ok(None);
    }
    let pitch = field(line, 0, Field::Pitch)?;
    let first = field(line, 1, Field::First)?;
    let nights = field(line, 2, Field::Nights)?;
    let booking = field(line, 3, Field::Booking)?;
    if !word_at(line, 4).is_empty() {
        return Err(LineFault::TooMany);
    }
    Ok(Some(Stay {
        pitch,
        first,
        nights,
        booking,
    }))
}
