//! Permutations against tables, bit by bit computations and running sums of this module's own.
use crate::cases::Cases;
use expected::numbers::{power, times};
use permutation::{Affine, Chain, Identity, Permutation, XorShift};
use std::io;

mod set_ups;

/// Bit i is the XOR of the bits i and i + shift.
fn xor_by_bits(width: u32, shift: u32, n: u64) -> u64 {
    let bit = |i: u32| times(n, power(i)) % 2;
    (0..width.min(32))
        .filter(|i| bit(*i) != bit(i.saturating_add(shift)))
        .fold(0u64, |y, i| y.saturating_add(power(i)))
}

/// The next term of c, c + a, c + 2a and so on by the size.
fn stepped(y: u64, a: u64, size: u64) -> u64 {
    let next = y.saturating_add(a);
    if next < size {
        next
    } else {
        next.saturating_sub(size)
    }
}

fn all_of_identity(rt: &HostRuntime) -> io::Result<()> {
    let mut cases = Cases::new(rt);
    for width in 1..9u32 {
        let Ok(p) = Identity::new(width) else {
            cases.unmade()?;
            continue;
        };
        for n in 0..power(width).saturating_add(3) {
            cases.there_and_back(&p, n, n)?;
        }
    }
    cases.show("identity, all numbers of widths 1 to 8")
}

fn one_affine(cases: &mut Cases<'_>, width: u32, a: u64, c: u64) -> io::Result<()> {
    let Ok(p) = Affine::new(width, a, c) else {
        return cases.unmade();
    };
    let size = power(width);
    let mut y = c;
    for n in 0..size {
        cases.there_and_back(&p, n, y)?;
        y = stepped(y, a, size);
    }
    cases.stays_past(&p, size)
}

fn all_of_affine(rt: &HostRuntime) -> io::Result<()> {
    let mut cases = Cases::new(rt);
    for width in 1..5u32 {
        let size = power(width);
        for half in 0..size / 2 {
            for c in 0..size {
                one_affine(
                    &mut cases,
                    width,
                    half.saturating_mul(2).saturating_add(1),
                    c,
                )?;
            }
        }
    }
    cases.show("affine, all numbers of widths 1 to 4")
}

fn all_of_xor_shift(rt: &HostRuntime) -> io::Result<()> {
    let mut cases = Cases::new(rt);
    for width in 2..8u32 {
        let size = power(width);
        for shift in 1..width {
            let Ok(p) = XorShift::new(width, shift) else {
                cases.unmade()?;
                continue;
            };
            for n in 0..size {
                cases.there_and_back(&p, n, xor_by_bits(width, shift, n))?;
            }
            cases.stays_past(&p, size)?;
        }
    }
    cases.show("xor-shift, all numbers of widths 2 to 7")
}

/// The widths of one bit, where there is no shift, and of 32 bits.
fn edges(rt: &HostRuntime) -> io::Result<()> {
    let mut cases = Cases::new(rt);
    one_affine(&mut cases, 1, 1, 0)?;
    one_affine(&mut cases, 1, 1, 1)?;
    wide_identity(&mut cases)?;
    wide_affine(&mut cases)?;
    wide_xor_shift(&mut cases)?;
    cases.show("widths 1 and 32 at their edges")
}

fn wide_identity(cases: &mut Cases<'_>) -> io::Result<()> {
    for width in [1, 32u32] {
        let Ok(p) = Identity::new(width) else {
            cases.unmade()?;
            continue;
        };
        cases.equal("width", u64::from(p.width()), u64::from(width))?;
        cases.stays(&p, &EDGES)?;
        cases.stays(&p, &WIDER)?;
    }
    Ok(())
}

/// Numbers at the edges of 32 bits.
const EDGES: [u64; 6] = [
    0,
    1,
    2_147_483_647,
    2_147_483_648,
    4_294_967_294,
    4_294_967_295,
];

/// Numbers that have more than 32 bits.
const WIDER: [u64; 4] = [
    4_294_967_296,
    4_294_967_297,
    9_223_372_036_854_775_808,
    u64::MAX,
];

/// A multiplier and an increment of 32 bits, and where some numbers go: worked out elsewhere.
const MULTIPLIER: u64 = 2_654_435_761;

const INCREMENT: u64 = 12_345;

const INVERSE: u64 = 244_002_641;

const GOES: [(u64, u64); 6] = [
    (0, 12_345),
    (1, 2_654_448_106),
    (2, 1_013_916_571),
    (2_147_483_648, 2_147_495_993),
    (4_294_967_295, 1_640_543_880),
    (3_735_928_559, 2_629_380_728),
];

fn wide_affine(cases: &mut Cases<'_>) -> io::Result<()> {
    let Ok(most) = Affine::new(32, 4_294_967_295, 4_294_967_295) else {
        return cases.unmade();
    };
    let Ok(some) = Affine::new(32, MULTIPLIER, INCREMENT) else {
        return cases.unmade();
    };
    for n in EDGES {
        // −n − 1 by 2^32 turns every bit
        cases.there_and_back(&most, n, n ^ 4_294_967_295)?;
    }
    for (n, y) in GOES {
        cases.there_and_back(&some, n, y)?;
    }
    cases.equal("inverse", most.inverse(), 4_294_967_295)?;
    cases.equal("inverse", some.inverse(), INVERSE)?;
    cases.equal("width", u64::from(some.width()), 32)?;
    cases.stays(&most, &WIDER)?;
    cases.stays(&some, &WIDER)
}

fn wide_xor_shift(cases: &mut Cases<'_>) -> io::Result<()> {
    for shift in [1, 2, 15, 16, 17, 30, 31u32] {
        let Ok(p) = XorShift::new(32, shift) else {
            cases.unmade()?;
            continue;
        };
        for n in EDGES {
            cases.there_and_back(&p, n, xor_by_bits(32, shift, n))?;
        }
        cases.stays(&p, &WIDER)?;
    }
    Ok(())
}

/// The worked numbers, and a chain in a chain.
fn chains(cases: &mut Cases<'_>) -> io::Result<()> {
    let Ok(first) = Affine::new(8, 5, 3) else {
        return cases.unmade();
    };
    let Ok(second) = XorShift::new(8, 3) else {
        return cases.unmade();
    };
    let Ok(third) = Identity::new(8) else {
        return cases.unmade();
    };
    cases.equal("inverse", first.inverse(), 205)?;
    cases.there_and_back(&first, 100, 247)?;
    cases.there_and_back(&first, 255, 254)?;
    cases.there_and_back(&second, 200, 209)?;
    let Ok(inner) = Chain::new(first, second) else {
        return cases.unmade();
    };
    cases.there_and_back(&inner, 100, 233)?;
    let Ok(outer) = Chain::new(inner, third) else {
        return cases.unmade();
    };
    all_of_chain(cases, &outer)
}

/// That the numbers of 8 bits go by 5n + 3, then by a shift of 3, and the others stay.
fn all_of_chain(
    cases: &mut Cases<'_>,
    p: &Chain<Chain<Affine, XorShift>, Identity>,
) -> io::Result<()> {
    cases.equal("width", u64::from(p.width()), 8)?;
    let mut y = 3;
    for n in 0..256u64 {
        cases.there_and_back(p, n, xor_by_bits(8, 3, y))?;
        y = stepped(y, 5, 256);
    }
    cases.stays(p, &[256, 257, 512, u64::MAX])
}

/// Every group of comparisons.
pub fn run(rt: &HostRuntime) -> io::Result<()> {
    all_of_identity(rt)?;
    all_of_affine(rt)?;
    all_of_xor_shift(rt)?;
    edges(rt)?;
    let mut cases = Cases::new(rt);
    chains(&mut cases)?;
    cases.show("a chain in a chain, all numbers of width 8")?;
    set_ups::run(rt)
}
