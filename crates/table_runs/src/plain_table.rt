//! Runs of the plain table: the calls at their edges, and damaged words.
use crate::damage::Damage;
use crate::pair::Pair;
use crate::widths::Widths;
use blocks::PlainTable;
use expected::layout::Entry;
use std::io;
use table::refusal::TableRefusal::{Absent, DoesNotFit, Full, Held, OutOfRange, Unformed};

/// Which widths fit: the edges of k, v, b and of the number of words.
fn widths(rt: &HostRuntime) -> io::Result<()> {
    let mut one = Pair::<PlainTable>::new(rt, 16)?;
    one.form(0, 0, 0, Err(DoesNotFit));
    one.form(1, 0, 0, Ok(()));
    one.form(1, 0, 1, Err(DoesNotFit));
    one.form(32, 32, 0, Ok(()));
    one.form(33, 0, 0, Err(DoesNotFit));
    one.form(32, 33, 0, Err(DoesNotFit));
    one.form(2, 0, 1, Err(DoesNotFit));
    one.form(32, 0, 21, Err(DoesNotFit));
    one.form(32, 0, 31, Err(DoesNotFit));
    one.form(u32::MAX, u32::MAX, u32::MAX, Err(DoesNotFit));
    one.tally.show(rt, "widths over 16 words")?;
    let mut few = Pair::<PlainTable>::new(rt, 31)?;
    few.form(2, 0, 1, Err(DoesNotFit));
    few.form(2, 0, 0, Ok(()));
    few.tally.show(rt, "widths over 31 words")?;
    let mut two = Pair::<PlainTable>::new(rt, 32)?;
    two.form(2, 0, 1, Ok(()));
    two.form(3, 0, 2, Err(DoesNotFit));
    two.tally.show(rt, "widths over 32 words")
}

/// An unformed table refuses all but form.
fn unformed(rt: &HostRuntime) -> io::Result<()> {
    let mut t = Pair::<PlainTable>::new(rt, 40)?;
    t.add(0, 0, 0, Err(Unformed))?;
    t.remove(0, 0, Err(Unformed));
    t.size(0, Err(Unformed));
    t.entry(0, 0, Err(Unformed));
    t.tally.show(rt, "an unformed table")
}

/// Edges of the ranges of slots, quotients, values and places.
fn ranges(rt: &HostRuntime) -> io::Result<()> {
    let mut t = Pair::<PlainTable>::new(rt, 20)?;
    t.form(32, 32, 0, Ok(()));
    t.add(0, 4_294_967_296, 0, Err(OutOfRange))?;
    t.add(0, 4_294_967_295, 4_294_967_296, Err(OutOfRange))?;
    t.add(1, 0, 0, Err(OutOfRange))?;
    t.add(0, 4_294_967_295, 4_294_967_295, Ok(()))?;
    t.entry(0, 0, Ok((4_294_967_295, 4_294_967_295)));
    t.entry(0, 1, Err(OutOfRange));
    t.remove(0, 4_294_967_296, Err(OutOfRange));
    t.remove(0, 4_294_967_294, Err(Absent));
    t.size(0, Ok(1));
    t.size(1, Err(OutOfRange));
    t.size(u64::MAX, Err(OutOfRange));
    t.form(1, 0, 0, Ok(()));
    t.add(0, 1, 1, Err(OutOfRange))?;
    t.add(0, 2, 0, Err(OutOfRange))?;
    t.add(0, 1, 0, Ok(()))?;
    t.add(0, 1, 0, Err(Held))?;
    t.remove(0, 1, Ok(0));
    t.form(33, 0, 0, Err(DoesNotFit));
    t.size(0, Ok(0));
    t.tally.show(rt, "edges of the ranges")
}

/// A slot takes 15 entries and refuses the 16th, until one is removed; the order is kept.
fn sixteenth(rt: &HostRuntime) -> io::Result<()> {
    let mut t = Pair::<PlainTable>::new(rt, 260)?;
    t.form(20, 24, 4, Ok(()));
    t.add(4, 9, 90, Ok(()))?;
    for i in 0..15u64 {
        t.add(3, 100 + i, 7 * i, Ok(()))?;
    }
    t.size(3, Ok(15));
    t.add(3, 200, 1, Err(Full))?;
    t.add(3, 105, 1, Err(Held))?;
    t.remove(3, 105, Ok(35));
    t.add(3, 200, 1, Ok(()))?;
    t.add(3, 201, 1, Err(Full))?;
    t.entry(3, 5, Ok((106, 42)));
    t.entry(3, 14, Ok((200, 1)));
    t.entry(3, 15, Err(OutOfRange));
    t.remove(3, 105, Err(Absent));
    t.remove(3, 100, Ok(0));
    t.remove(3, 200, Ok(1));
    t.size(3, Ok(13));
    t.remove(4, 9, Ok(90));
    t.size(4, Ok(0));
    t.tally.show(rt, "the 16th entry of a slot")
}

/// What a table of 4 slots holds: slot 1 has two entries, slot 3 one.
const HELD: [Entry; 3] = [
    Entry {
        slot: 1,
        quotient: 255,
        value: 255,
    },
    Entry {
        slot: 1,
        quotient: 2,
        value: 0,
    },
    Entry {
        slot: 3,
        quotient: 17,
        value: 3,
    },
];

/// The word of an entry.
fn word(quotient: u64, value: u64) -> u64 {
    Entry {
        slot: 0,
        quotient,
        value,
    }
    .word()
}

/// Damaged words, over 4 slots and 3 words past them.
fn damaged(rt: &HostRuntime) -> io::Result<()> {
    let sound = Widths { k: 10, v: 8, b: 2 };
    let mut t = Damage::<PlainTable>::new(rt, 67, sound, &HELD)?;
    t.kept(&HELD[..1])?;
    t.unfit_too(Widths { k: 33, ..sound })?;
    t.unfit_too(Widths { v: 33, ..sound })?;
    t.unfit_too(Widths { k: 2, ..sound })?;
    t.unfit_too(Widths { b: 3, ..sound })?;
    t.show(rt, "sound words, and widths that do not fit")?;
    t.wrong(0, 16, 0)?;
    t.wrong(0, u64::MAX, 0)?;
    t.wrong(0, 2, 0)?;
    t.wrong(16, 1, 1)?;
    t.wrong(16, 4, 1)?;
    t.wrong(18, word(255, 1), 1)?;
    t.wrong(17, word(256, 255), 1)?;
    t.wrong(17, word(255, 256), 1)?;
    t.wrong(31, 1, 1)?;
    t.wrong(47, 1, 2)?;
    t.wrong(49, word(1024, 0), 3)?;
    t.wrong(63, 1, 3)?;
    t.wrong(64, 1, 4)?;
    t.wrong(66, u64::MAX, 4)?;
    t.show(rt, "damaged words")
}

/// Runs all of it.
pub fn run(rt: &HostRuntime) -> io::Result<()> {
    widths(rt)?;
    unformed(rt)?;
    ranges(rt)?;
    sixteenth(rt)?;
    damaged(rt)
}
