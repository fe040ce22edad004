//! Fields of many widths over whole areas, against words made bit by bit.
use crate::{bitwise, noise};
use std::io;
use tally::tally::Tally;

/// The widths that are tried, the last two past 64.
const WIDTHS: [u32; 9] = [0, 1, 7, 15, 31, 32, 64, 65, 4294967295];

/// How many fields of width `w` lie in the area, with one that may lie across its end.
fn count(w: u64) -> u64 {
    if w == 0 { 10 } else { bitwise::BITS / w + 1 }
}

/// `area` after a field was written.
fn write(area: [u64; 6], width: u32, t: u64, v: u64) -> [u64; 6] {
    let mut r = area;
    bits::fields::write(&mut r, width, t, v);
    r
}

/// `area` after a field was inserted.
fn insert(area: [u64; 6], width: u32, n: u64, t: u64, v: u64) -> [u64; 6] {
    let mut r = area;
    bits::fields::insert(&mut r, width, n, t, v);
    r
}

/// `area` after a field was removed.
fn remove(area: [u64; 6], width: u32, n: u64, t: u64) -> [u64; 6] {
    let mut r = area;
    bits::fields::remove(&mut r, width, n, t);
    r
}

/// A field of `area`.
fn read(area: [u64; 6], width: u32, t: u64) -> u64 {
    bits::fields::read(&area, width, t)
}

/// An area of noise.
fn noisy(seed: u64) -> [u64; 6] {
    let mut r = [0; 6];
    noise::fill(&mut r, seed);
    r
}

/// Every field of an area written one after the other, all words compared each time, and then read.
fn whole(width: u32, tally: &mut Tally) {
    let w = width as u64;
    let mut area = noisy(w);
    let mut seed = w;
    for t in 0..count(w) {
        seed = noise::next(seed);
        let expected = bitwise::written(&area, w, t, seed);
        area = write(area, width, t, seed);
        tally.count(area == expected);
    }
    for t in 0..count(w).wrapping_add(2) {
        let expected = if width <= 64 {
            bitwise::field(&area, w, t)
        } else {
            0
        };
        tally.count(read(area, width, t) == expected);
    }
}

/// Fields far past the end, where the place of their first bit passes 2^64 too.
fn past(width: u32, tally: &mut Tally) {
    let before = noisy(77);
    for t in [10000, 288230376151711744, 1152921504606846976, u64::MAX] {
        if width > 0 {
            tally.count(write(before, width, t, u64::MAX) == before);
            tally.count(read(before, width, t) == 0);
        }
    }
}

/// Fields inserted and removed at every kind of place, among every kind of count.
fn moved(width: u32, tally: &mut Tally) {
    let w = width as u64;
    let full = count(w);
    let mut seed = w;
    for n in [
        0,
        1,
        3,
        full.wrapping_sub(2),
        full.wrapping_sub(1),
        full,
        full.wrapping_add(5),
        u64::MAX,
    ] {
        for t in [
            0,
            1,
            2,
            n / 2,
            n.wrapping_sub(1),
            n,
            n.saturating_add(3),
            u64::MAX,
        ] {
            seed = noise::next(seed);
            let area = noisy(seed);
            tally.count(insert(area, width, n, t, seed) == bitwise::inserted(&area, w, n, t, seed));
            tally.count(remove(area, width, n, t) == bitwise::removed(&area, w, n, t));
        }
    }
}

/// A list of up to ten fields built by insertions at chosen places and taken down again, its area compared with the plain list packed bit by bit.
fn list(width: u32, tally: &mut Tally) {
    let w = width as u64;
    let full = if w == 0 {
        10
    } else {
        (bitwise::BITS / w).min(10)
    };
    let mut area = [0; 6];
    let mut plain = [0; 10];
    let mut seed = w;
    for n in 0..full {
        seed = noise::next(seed);
        let t = seed % (n + 1);
        plain = bitwise::list_with(&plain, t, seed);
        area = insert(area, width, n, t, seed);
        tally.count(area == bitwise::packed(&plain, w));
    }
    for i in 0..full {
        seed = noise::next(seed);
        let n = full - i;
        let t = seed % n;
        plain = bitwise::list_without(&plain, t);
        area = remove(area, width, n, t);
        tally.count(area == bitwise::packed(&plain, w));
    }
    tally.count(area == [0; 6]);
}

/// Runs the fields and prints a line for each width.
pub fn run(rt: &HostRuntime) -> io::Result<()> {
    for width in WIDTHS {
        let mut tally = Tally::new();
        whole(width, &mut tally);
        past(width, &mut tally);
        moved(width, &mut tally);
        list(width, &mut tally);
        println!(rt; "fields of width {width}: {tally}")?;
    }
    let mut area = [0; 2];
    bits::fields::write(&mut area, 15, 4, 32767);
    let low = area[0];
    let high = area[1];
    println!(rt; "width 15, field 4 set to 32767: words {low} and {high}")
}
