//! The formulas of permutations and of tables.
use expected::kind::Kind;
use expected::layout::Layout;
use expected::numbers::{power, rest, times};

/// A permutation: a multiplication and an addition by 2^width, then perhaps the XOR with the same shifted down.
#[derive(Clone, Copy, PartialEq, Eq, Debug)]
pub struct Mix {
    pub width: u32,
    pub multiplier: u64,
    pub increment: u64,
    pub shift: Option<u32>,
}

impl Mix {
    /// Where a number below 2^width goes.
    pub fn of(self, x: u64) -> u64 {
        let all = x.wrapping_mul(self.multiplier).wrapping_add(self.increment);
        let y = rest(all, power(self.width));
        self.shift.map_or(y, |shift| y ^ times(y, power(shift)))
    }
}

/// A table: its kind, and how many words it has.
#[derive(Clone, Copy, PartialEq, Eq, Debug)]
pub struct Store {
    pub kind: Kind,
    pub words: u64,
}

impl Store {
    /// How it stands in its words, with 2^b slots.
    pub fn layout(self, k: u32, v: u32, b: u32) -> Layout {
        Layout {
            kind: self.kind,
            quotient: k.saturating_sub(b),
            value: v,
        }
    }

    /// Whether widths fit.
    pub fn fits(self, k: u32, v: u32, b: u32) -> bool {
        if k > 32 || v > 32 || b > 20 || b >= k {
            return false;
        }
        if self.kind == Kind::Packed && b < 4 {
            return false;
        }
        let blocks = times(power(b), self.kind.group());
        self.layout(k, v, b).block().saturating_mul(blocks) <= self.words
    }
}
