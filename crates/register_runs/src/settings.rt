//! What registers are made of.
use crate::items::Sort;
use crate::rules::Mix;
use blocks::{PackedTable, PlainTable};
use coding::{BookingCoding, CardCoding, LoanCoding, NightCoding};
use permutation::{Affine, Chain, SetUpRefusal, XorShift};
use std::io;

/// What the four lists of a permutation have in common.
#[derive(Clone, Copy)]
pub struct Setting<K, V> {
    pub keys: K,
    pub values: V,
    pub key_sort: Sort,
    pub value_sort: Sort,
    pub mix: Mix,
}

/// The identity of 20 bits.
pub const SAME: Mix = Mix {
    width: 20,
    multiplier: 1,
    increment: 0,
    shift: None,
};

/// Nights and bookings under the identity.
pub const NIGHTS: Setting<NightCoding, BookingCoding> = Setting {
    keys: NightCoding,
    values: BookingCoding,
    key_sort: Sort::Nights,
    value_sort: Sort::Bookings,
    mix: SAME,
};

/// Cards and loans under a multiplication and an addition.
pub const CARDS: Setting<CardCoding, LoanCoding> = Setting {
    keys: CardCoding,
    values: LoanCoding,
    key_sort: Sort::Cards,
    value_sort: Sort::Loans,
    mix: Mix {
        width: 32,
        multiplier: 2_654_435_761,
        increment: 4_000_000_000,
        shift: None,
    },
};

/// A packed table over so many words.
pub fn packed_table(rt: &HostRuntime, words: usize) -> io::Result<PackedTable> {
    Ok(PackedTable::set_up(vec![in rt.alloc(); 7u64; words]?))
}

/// A plain table over so many words.
pub fn plain_table(rt: &HostRuntime, words: usize) -> io::Result<PlainTable> {
    Ok(PlainTable::set_up(vec![in rt.alloc(); 9u64; words]?))
}

/// A multiplication and an addition, then an XOR with a shift.
pub type Mixed = Chain<Affine, XorShift>;

/// The permutation of a formula with all its parts.
pub fn chain(mix: Mix) -> Result<Mixed, SetUpRefusal> {
    let affine = Affine::new(mix.width, mix.multiplier, mix.increment)?;
    let shift = mix.shift.ok_or(SetUpRefusal::Shift)?;
    Chain::new(affine, XorShift::new(mix.width, shift)?)
}
