//! Fields of a width from 0 to 64 bits in an area: field t is bits t × width to t × width + width − 1.
ghost use Rattle.std.specs.Prelude.{◌≡◌, ℕ, ◌+◌, ◌-◌, ◌*◌, ◌%◌, ◌^◌, ◌<◌, ◌≤◌, length};
ghost use Rattle.bits.specs.Area.{number, words_of, bits, splice, wide, field, field_written, field_inserted, field_removed};

use crate::words::{WORD, Width, read_bits, write_bits};

/// Field `index` of `area`, whose fields have `width` bits each.
pub fn read(area: &[u64], width: u32, index: u64) -> u64
    ensures value { result ≡ field (wide width) (number area.now) index }
    ensures bound { result < 2 ^ wide width }
{
    let width = Width::of(width);
    read_bits(area, width.place(index), width)
}

/// Sets field `index` of `area` to the low `width` bits of `value`.
pub fn write(area: &mut [u64], width: u32, index: u64, value: u64)
    ensures { area.new ≡ words_of (length area.old) (field_written (wide width) (number area.old) index value) }
{
    let width = Width::of(width);
    write_bits(area, width.place(index), width, value);
}

/// Puts `value` in as field `index` among the first `count` fields of `area`: those from there on move up by one.
pub fn insert(area: &mut [u64], width: u32, count: u64, index: u64, value: u64)
    ensures { area.new ≡ words_of (length area.old) (field_inserted (wide width) count (number area.old) index value) }
{
    let width = Width::of(width);
    let from = width.place(index.min(count));
    let end = (width.place(count) + width.bits()).min(bit_len(area));
    let last = end.saturating_sub(width.bits()).max(from);
    raise(area, from, last, width);
    write_bits(area, from, width, value);
}

/// Takes field `index` out of the first `count` fields of `area`: those after it move down by one, and the last becomes 0.
pub fn remove(area: &mut [u64], width: u32, count: u64, index: u64)
    ensures { area.new ≡ words_of (length area.old) (field_removed (wide width) count (number area.old) index) }
{
    if index >= count {
        return;
    }
    let width = Width::of(width);
    let from = width.place(index);
    let end = width.place(count).min(bit_len(area));
    let last = end.saturating_sub(width.bits()).max(from);
    lower(area, from, last, width);
    write_bits(area, last, width, 0);
}

/// The number of bits in `area`.
fn bit_len(area: &[u64]) -> u128
    ensures { result ≡ 64 * length area.now }
{
    area.len() as u128 * WORD as u128
}

/// Moves the bits of `area` from `from` to `end` up by `by`.
fn raise(area: &mut [u64], from: u128, end: u128, by: Width)
    requires order { from ≤ end }
    requires inside { from < end → end + by.bits ≤ 64 * length area.old }
    ensures { number area.new ≡ splice (number area.old) (from + by.bits) (end - from) (bits (number area.old) from (end - from)) }
{
    for part in (0..(end - from).div_ceil(WORD as u128) as usize).rev() {
        let at = from + part as u128 * WORD as u128;
        let size = Width::up_to(end - at);
        let moved = read_bits(area, at, size);
        write_bits(area, at + by.bits(), size, moved);
    }
}

/// Moves the bits of `area` from `from + by` to `end + by` down by `by`.
fn lower(area: &mut [u64], from: u128, end: u128, by: Width)
    requires order { from ≤ end }
    requires inside { from < end → end + by.bits ≤ 64 * length area.old }
    ensures { number area.new ≡ splice (number area.old) from (end - from) (bits (number area.old) (from + by.bits) (end - from)) }
{
    for part in 0..(end - from).div_ceil(WORD as u128) as usize {
        let at = from + part as u128 * WORD as u128;
        let size = Width::up_to(end - at);
        let moved = read_bits(area, at + by.bits(), size);
        write_bits(area, at, size, moved);
    }
}
