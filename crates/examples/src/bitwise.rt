//! Areas looked at and made bit by bit, with nothing of the crate `bits`.
use expected::numbers::{rest, times};

/// The bits of the areas that are tried, which have six words.
pub const BITS: u64 = 384;

/// Bit `u` of `words`, 0 past the end.
pub fn bit(words: &[u64; 6], u: u64) -> u64 {
    let word = words.get((u / 64) as usize);
    word.map_or(0, |word| bit_of(*word, u % 64))
}

/// Sets bit `u` of `words` to the lowest bit of `b`.
fn put(words: &mut [u64; 6], u: u64, b: u64) {
    if let Some(word) = words.get_mut((u / 64) as usize) {
        let one = 1 << (u % 64);
        if b % 2 == 1 {
            *word |= one;
        } else {
            *word &= !one;
        }
    }
}

/// Bit `u` of a number, 0 past its 64.
fn bit_of(value: u64, u: u64) -> u64 {
    if u < 64 { value >> u & 1 } else { 0 }
}

/// Field `t` of width `w`, up to 64, gathered bit by bit.
pub fn field(words: &[u64; 6], w: u64, t: u64) -> u64 {
    let mut r = 0;
    for i in 0..w.min(64) {
        let place = t.checked_mul(w).and_then(|p| p.checked_add(i));
        if place.is_some_and(|u| bit(words, u) == 1) {
            r |= 1 << i;
        }
    }
    r
}

/// An area of which each bit is made.
fn area<F: Fn(u64) -> u64>(made: F) -> [u64; 6]
    requires { F.IsAlwaysCallable made }
{
    let mut r = [0; 6];
    for u in 0..BITS {
        put(&mut r, u, made(u));
    }
    r
}

/// `old` with field `t` replaced by the low bits of `v`.
pub fn written(old: &[u64; 6], w: u64, t: u64, v: u64) -> [u64; 6] {
    if w == 0 || w > 64 {
        return *old;
    }
    area(|u| {
        if times(u, w) == t {
            bit_of(v, rest(u, w))
        } else {
            bit(old, u)
        }
    })
}

/// `old` with `v` put in at place `t` among the first `n` fields.
pub fn inserted(old: &[u64; 6], w: u64, n: u64, t: u64, v: u64) -> [u64; 6] {
    if w == 0 || w > 64 {
        return *old;
    }
    let t = t.min(n);
    area(|u| {
        let f = times(u, w);
        if f == t {
            bit_of(v, rest(u, w))
        } else if t < f && f <= n {
            bit(old, u.wrapping_sub(w))
        } else {
            bit(old, u)
        }
    })
}

/// `old` with the field at place `t` of the first `n` taken out.
pub fn removed(old: &[u64; 6], w: u64, n: u64, t: u64) -> [u64; 6] {
    if w == 0 || w > 64 || t >= n {
        return *old;
    }
    let last = n - 1;
    area(|u| {
        let f = times(u, w);
        if t <= f && f < last {
            bit(old, u.wrapping_add(w))
        } else if f == last {
            0
        } else {
            bit(old, u)
        }
    })
}

/// A list with `v` put in at place `t`; its last place is dropped.
pub fn list_with(list: &[u64; 10], t: u64, v: u64) -> [u64; 10] {
    let mut r = *list;
    if t < 10 {
        let t = t as usize;
        r.copy_within(t..9, t + 1);
        r[t] = v;
    }
    r
}

/// A list with place `t` taken out, and a zero after the others.
pub fn list_without(list: &[u64; 10], t: u64) -> [u64; 10] {
    let mut r = *list;
    if t < 10 {
        let t = t as usize;
        r.copy_within(t + 1..10, t);
        r[9] = 0;
    }
    r
}

/// A list as fields of width `w`, in an area that holds nothing else.
pub fn packed(list: &[u64; 10], w: u64) -> [u64; 6] {
    if w == 0 || w > 64 {
        return [0; 6];
    }
    area(|u| {
        let number = list.get(times(u, w) as usize);
        number.map_or(0, |number| bit_of(*number, rest(u, w)))
    })
}
