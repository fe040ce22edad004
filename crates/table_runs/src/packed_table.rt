//! Runs of the packed table over several widths: calls drawn at random, the 49th entry of a group, 48 entries in one slot, and damaged words.
use crate::damage::Damage;
use crate::pair::Pair;
use crate::widths::Widths;
use blocks::PackedTable;
use expected::layout::Entry;
use expected::noise::Noise;
use expected::numbers::{power, rest};
use std::io;
use table::refusal::TableRefusal::OutOfRange;

/// Where and what a call is tried with.
#[derive(Clone, Copy)]
struct Call {
    slot: u64,
    quotient: u64,
    x: u64,
}

/// The lowest bits of a number.
fn low(x: u64, bits: u32) -> u64 {
    rest(x, power(bits))
}

impl Widths {
    /// The first slot of the last group.
    fn last_group(self) -> u64 {
        low(u64::MAX, self.b) / 16 * 16
    }

    /// A table over as many words as these widths need, and two more.
    fn formed(self, rt: &HostRuntime) -> io::Result<Pair<PackedTable>> {
        let Widths { k, v, b } = self;
        let block = self.layout::<PackedTable>().block();
        let words = block.saturating_mul(power(b.saturating_sub(4)));
        let mut pair = Pair::new(rt, words.saturating_add(2) as usize)?;
        pair.form(k, v, b, Ok(()));
        Ok(pair)
    }

    /// Where the i-th call goes: every fourth to any slot, the others into the last group.
    fn some(self, noise: &mut Noise, i: u64) -> Call {
        let slot = low(noise.next(), self.b);
        let quotient = low(noise.next(), self.k.saturating_sub(self.b).min(3));
        Call {
            slot: if i % 4 == 0 {
                slot
            } else {
                slot | self.last_group()
            },
            quotient,
            x: noise.next(),
        }
    }

    /// Prints the widths, how often a slot held the quotient and a group was full, and the cases.
    fn report(self, rt: &HostRuntime, t: &Pair<PackedTable>, what: &str) -> io::Result<()> {
        let Widths { k, v, b } = self;
        print!(rt;
            "k = {k}, v = {v}, b = {b}, {} held, {} full, ",
            t.held, t.full
        )?;
        t.tally.show(rt, what)
    }

    /// 90 adds and then 90 removals at random.
    fn walk(self, rt: &HostRuntime) -> io::Result<()> {
        let mut t = self.formed(rt)?;
        let mut noise = Noise::new(11);
        for i in 0..90 {
            let Call { slot, quotient, x } = self.some(&mut noise, i);
            t.put(slot, quotient, low(x.wrapping_mul(x), self.v))?;
            t.sizes(slot);
        }
        let mut noise = Noise::new(11);
        for i in 0..90 {
            let Call { slot, quotient, .. } = self.some(&mut noise, i);
            t.take_out(slot, quotient);
            t.sizes(low(noise.state, self.b));
        }
        self.report(rt, &t, "at random")
    }

    /// A group takes 48 entries and refuses the 49th, until one is removed.
    fn forty_ninth(self, rt: &HostRuntime) -> io::Result<()> {
        let mut t = self.formed(rt)?;
        let first = self.last_group();
        let most = low(u64::MAX, self.v);
        for i in 0..48u64 {
            let value = low(u64::MAX.wrapping_sub(i), self.v);
            t.put(first | (i * 7) % 16, i / 16, value)?;
        }
        t.put(first | 3, 3, 0)?;
        t.put(first | 15, 3, most)?;
        t.put(first | 3, 1, 0)?;
        t.take_out(first, 3);
        t.take_out(first, 1);
        t.put(first | 3, 3, most)?;
        t.put(first, 1, 0)?;
        for i in 0..16u64 {
            t.sizes(first | i);
        }
        self.report(rt, &t, "the 49th entry")
    }

    /// 48 entries in the last slot of a group, taken out from the front, the end and the middle.
    fn last_slot(self, rt: &HostRuntime) -> io::Result<()> {
        let mut t = self.formed(rt)?;
        for i in 0..48u64 {
            t.put(15, 63 - i, low(i.wrapping_mul(99_991), self.v))?;
        }
        t.sizes(15);
        t.sizes(0);
        t.put(0, 0, 0)?;
        t.entry(15, 0, Ok((63, 0)));
        t.entry(15, 47, Ok((16, low(47 * 99_991, self.v))));
        t.entry(15, 48, Err(OutOfRange));
        t.take_out(15, 63);
        t.take_out(15, 16);
        t.take_out(15, 40);
        t.take_out(15, 40);
        t.entry(15, 44, Ok((17, low(46 * 99_991, self.v))));
        t.put(14, 1, low(u64::MAX, self.v))?;
        t.add(power(self.b), 0, 0, Err(OutOfRange))?;
        t.add(0, power(self.k.saturating_sub(self.b)), 0, Err(OutOfRange))?;
        t.sizes(15);
        self.report(rt, &t, "48 entries in slot 15")
    }
}

/// What a table of 32 slots holds: slot 1 has two entries, slot 2 one, slot 20 one.
const HELD: [Entry; 4] = [
    Entry {
        slot: 1,
        quotient: 9,
        value: 90,
    },
    Entry {
        slot: 1,
        quotient: 8,
        value: 92,
    },
    Entry {
        slot: 2,
        quotient: 9,
        value: 91,
    },
    Entry {
        slot: 20,
        quotient: 32_767,
        value: 16_777_215,
    },
];

/// How many words, and widths that fit them.
const FIT: [(usize, Widths); 3] = [
    (31, Widths { k: 20, v: 24, b: 4 }),
    (62, Widths { k: 20, v: 24, b: 5 }),
    (2, Widths { k: 5, v: 0, b: 4 }),
];

/// How many words, and widths that do not fit them.
const UNFIT: [(usize, Widths); 9] = [
    (30, Widths { k: 20, v: 24, b: 4 }),
    (61, Widths { k: 20, v: 24, b: 5 }),
    (1000, Widths { k: 20, v: 24, b: 3 }),
    (
        1000,
        Widths {
            k: 20,
            v: 24,
            b: 21,
        },
    ),
    (1000, Widths { k: 33, v: 24, b: 4 }),
    (1000, Widths { k: 20, v: 33, b: 4 }),
    (1000, Widths { k: 4, v: 24, b: 4 }),
    (
        1000,
        Widths {
            k: u32::MAX,
            v: u32::MAX,
            b: u32::MAX,
        },
    ),
    (1, Widths { k: 5, v: 0, b: 4 }),
];

/// Damaged words: two blocks of 31, with quotients of 15 bits and values of 24, and three words past them.
fn damaged(rt: &HostRuntime) -> io::Result<()> {
    let sound = Widths { k: 20, v: 24, b: 5 };
    let mut t = Damage::<PackedTable>::new(rt, 65, sound, &HELD)?;
    t.kept(&[HELD[1], HELD[3]])?;
    for (words, widths) in FIT {
        t.empty(vec![in rt.alloc(); 0u64; words]?, widths);
    }
    for (words, widths) in UNFIT {
        t.unfit(vec![in rt.alloc(); 0u64; words]?, widths);
    }
    t.show(rt, "sound words, and which widths fit")?;
    t.wrong(0, 0x1_FFFF_FFFF_FFFF, 0)?;
    t.wrong(31, u64::MAX, 1)?;
    t.wrong_bit(0, 63, 0)?;
    t.wrong_bit(0, 19, 0)?;
    t.wrong_bit(31, 17, 1)?;
    t.wrong(0, 0, 0)?;
    t.wrong(31, 0, 1)?;
    t.show(rt, "damaged marks")?;
    t.wrong_bit(1, 45, 0)?;
    t.wrong_bit(1, 720, 0)?;
    t.wrong_bit(1, 767, 0)?;
    t.wrong_bit(13, 72, 0)?;
    t.wrong_bit(13, 1151, 0)?;
    t.wrong_bit(32, 15, 1)?;
    t.wrong_bit(44, 24, 1)?;
    t.wrong_bit(62, 0, 2)?;
    t.wrong_bit(64, 63, 2)?;
    t.show(rt, "bits and words past the last")?;
    t.wrong_bit(1, 15, 0)?;
    t.show(rt, "a quotient twice in a slot")
}

/// The widths over which each run goes.
const WALKS: [Widths; 7] = [
    Widths { k: 20, v: 24, b: 4 },
    Widths { k: 20, v: 24, b: 5 },
    Widths { k: 32, v: 32, b: 4 },
    Widths { k: 9, v: 0, b: 5 },
    Widths { k: 5, v: 7, b: 4 },
    Widths { k: 7, v: 32, b: 6 },
    Widths { k: 6, v: 0, b: 5 },
];

const FULL: [Widths; 4] = [
    Widths { k: 20, v: 24, b: 4 },
    Widths { k: 32, v: 32, b: 4 },
    Widths { k: 8, v: 0, b: 5 },
    Widths { k: 6, v: 1, b: 4 },
];

const LAST: [Widths; 3] = [
    Widths { k: 20, v: 24, b: 4 },
    Widths { k: 32, v: 32, b: 4 },
    Widths { k: 11, v: 0, b: 5 },
];

/// Runs all of it.
pub fn run(rt: &HostRuntime) -> io::Result<()> {
    for widths in WALKS {
        widths.walk(rt)?;
    }
    for widths in FULL {
        widths.forty_ninth(rt)?;
    }
    for widths in LAST {
        widths.last_slot(rt)?;
    }
    damaged(rt)
}
