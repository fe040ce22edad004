//! Marks of many lists of sizes, there and back, against words made bit by bit.
use crate::noise;
use std::io;
use tally::tally::Tally;

/// The slots of a group.
const SLOTS: u64 = 16;

/// The entries that a group may have.
const LIMIT: u64 = 48;

/// The word of sixteen sizes, made bit by bit: what passes bit 63 is dropped.
fn made(sizes: &[u64; 16]) -> u64 {
    let mut word = 0;
    let mut at: u64 = 0;
    for size in sizes {
        for _i in 0..*size {
            if at < 64 {
                word |= 1 << at;
            }
            at = at.wrapping_add(1);
        }
        at = at.wrapping_add(1);
    }
    word
}

/// What a walk over the bits of a word finds of one slot.
#[derive(Clone, Copy)]
struct Found {
    /// Where the slot's marks begin and end, 64 at most.
    begin: u64,
    end: u64,
    /// The ones before it, and all of them.
    before: u64,
    load: u64,
}

/// Walks over the bits of `word` from bit 0 up and counts zeros and ones.
fn walk(word: u64, slot: u64) -> Found {
    let mut zeros: u64 = 0;
    let mut w = Found {
        begin: 64,
        end: 64,
        before: 0,
        load: 0,
    };
    for at in 0..64 {
        if zeros == slot && w.begin == 64 {
            w.begin = at;
            w.before = w.load;
        }
        if word >> at & 1 == 1 {
            w.load = w.load.wrapping_add(1);
        } else {
            if zeros == slot {
                w.end = at;
            }
            zeros = zeros.wrapping_add(1);
        }
    }
    if w.begin == 64 {
        w.before = w.load;
    }
    w
}

/// Whether the walk finds at most `limit` ones, and none after zero number `slots`.
fn sound(word: u64, slots: u64, limit: u64) -> bool {
    let w = walk(word, slots);
    w.load <= limit && w.load == w.before
}

/// All questions about one slot of a word.
fn ask(word: u64, slot: u64, tally: &mut Tally) {
    let w = walk(word, slot);
    tally.count(bits::marks::load(word) == w.load);
    tally.count(bits::marks::begin(word, slot) == w.begin);
    tally.count(bits::marks::end(word, slot) == w.end);
    tally.count(bits::marks::size(word, slot) == w.end.wrapping_sub(w.begin));
    tally.count(bits::marks::before(word, slot) == w.before);
}

/// Sizes of sixteen slots by chance, up to 48 in all, built entry by entry, read back, and taken down again.
fn there_and_back(seed: u64, tally: &mut Tally) {
    let mut sizes: [u64; 16] = [0; 16];
    let mut word = 0;
    let mut x = seed;
    let entries = seed % (LIMIT + 1);
    for _i in 0..entries {
        x = noise::next(x);
        let slot = (x >> 7) % SLOTS;
        let i = slot as usize;
        sizes[i] = sizes[i].wrapping_add(1);
        word = bits::marks::add(word, slot);
        tally.count(word == made(&sizes));
    }
    tally.count(bits::marks::is_marks(word, SLOTS, LIMIT));
    tally.count(bits::marks::load(word) == entries);
    for (slot, size) in (0..SLOTS).zip(sizes.iter()) {
        tally.count(bits::marks::size(word, slot) == *size);
        ask(word, slot, tally);
    }
    for _i in 0..200 {
        x = noise::next(x);
        let slot = (x >> 9) % SLOTS;
        let i = slot as usize;
        sizes[i] = sizes[i].saturating_sub(1);
        word = bits::marks::remove(word, slot);
        tally.count(word == made(&sizes));
    }
}

/// Words by chance and words near the edge, as marks of many numbers of slots within many limits.
fn any_word(word: u64, tally: &mut Tally) {
    for slots in [0, 1, 2, 15, 16, 17, 40, 63, 64, 65, 1000, u64::MAX] {
        for limit in [0, 5, 47, 48, 49, 64, u64::MAX] {
            tally.count(bits::marks::is_marks(word, slots, limit) == sound(word, slots, limit));
        }
        ask(word, slots, tally);
    }
}

/// Runs the marks and prints a line for each kind of case.
pub fn run(rt: &HostRuntime) -> io::Result<()> {
    let mut tally = Tally::new();
    for seed in 0..98 {
        there_and_back(seed, &mut tally);
    }
    println!(rt; "marks there and back: {tally}")?;
    let mut tally = Tally::new();
    let mut x = 3;
    for _i in 0..40 {
        x = noise::next(x);
        any_word(x, &mut tally);
        any_word(x >> (x % 64), &mut tally);
        any_word(u64::MAX >> (x % 64), &mut tally);
    }
    any_word(0, &mut tally);
    any_word(u64::MAX, &mut tally);
    any_word(1 << 63, &mut tally);
    println!(rt; "any word as marks: {tally}")?;
    let three = bits::marks::add(bits::marks::add(bits::marks::add(0, 2), 0), 0);
    let mut last = 0;
    for _i in 0..LIMIT {
        last = bits::marks::add(last, 15);
    }
    println!(rt; "sizes 2, 0, 1: marks {three}; 48 entries in slot 15: marks {last}")
}
