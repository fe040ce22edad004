//! Runs of the dictionary: long lists of operations over pairs of tables and several permutations. Each answer, and after each operation the
//! words of both tables, are compared with a list and formulas that are kept here.

use crate::calls::InUse;
use crate::mirror::{Mirror, Room, Side};
use crate::mixed::{added_up, folded};
use crate::operation::{Answer, Operation, VALUES, WIDTH};
use blocks::{PackedTable, PlainTable};
use dictionary::Addressing;
use expected::clear::is_clear;
use expected::noise::Noise;
use expected::shown::Shown;
use permutation::{Affine, Chain, Identity, Permutation, SetUpRefusal, XorShift};
use std::io;
use table::shape::Shape;
use table::table::Table;
use tally::tally::Tally;

const STEPS: u64 = 600;

/// A dictionary over two tables, beside the list.
#[derive(Drop)]
struct Pair<'a, P: Permutation, A: Shown, B: Shown> {
    permutation: &'a P,
    first: &'a mut A,
    second: &'a mut B,
    mirror: Mirror,
}

impl<'a, P: Permutation, A: Shown, B: Shown> Pair<'a, P, A, B> {
    /// Puts an operation to whichever table is in use.
    fn answer(&mut self, shape: Shape, operation: Operation) -> Answer {
        let by = Addressing {
            permutation: self.permutation,
            shape,
        };
        match self.mirror.side {
            Side::First => InUse {
                by,
                table: &mut *self.first,
                other: &mut *self.second,
            }
            .put(operation),
            Side::Second => InUse {
                by,
                table: &mut *self.second,
                other: &mut *self.first,
            }
            .put(operation),
        }
    }

    /// Whether the answer to an operation is that of the list.
    fn right(&mut self, operation: Operation) -> io::Result<bool> {
        let shape = Shape::new(self.mirror.k, self.mirror.v, self.mirror.b);
        let got = shape.map(|shape| self.answer(shape, operation));
        let want = self.mirror.put(operation)?;
        Ok(got.is_some_and(|answer| answer.is(want)))
    }

    /// Whether the table in use has the words of the list, and the other one zeros.
    fn has_words(&self, rt: &HostRuntime) -> io::Result<bool> {
        let entries = self.mirror.entries(rt.alloc())?;
        let (used, other) = match self.mirror.side {
            Side::First => (self.first.shown(), self.second.shown()),
            Side::Second => (self.second.shown(), self.first.shown()),
        };
        Ok(self.mirror.layout().has_words(&entries, used) && is_clear(other))
    }

    /// A long list of operations, from the first table on.
    fn operate(mut self, rt: &HostRuntime, what: &str) -> io::Result<()> {
        let mut tally = Tally::new();
        let mut noise = Noise::new(20260);
        let Mirror { k, v, b, .. } = self.mirror;
        let formed = self.first.form(k, v, b);
        tally.count(formed.is_ok());
        for i in 0..STEPS {
            let operation = if i % 16 == 5 {
                Operation::Enlarge
            } else {
                Operation::some(&mut noise)
            };
            let right = self.right(operation)?;
            tally.count(right && self.has_words(rt)?);
        }
        tally.show(rt, what)?;
        let Mirror { b, list, .. } = &self.mirror;
        println!(rt; "  then {} held in 2^{b} slots", list.len())
    }
}

/// A permutation, and where it takes each number.
#[derive(Clone, Copy)]
struct Setting<'a, P: Permutation> {
    permutation: &'a P,
    mixed: &'a [u64],
}

impl<'a, P: Permutation> Setting<'a, P> {
    /// A list of operations over two tables, of which each has a largest b for its words. It begins in the first of them with 2^b slots.
    fn pair<A: Shown, B: Shown>(
        &self,
        rt: &HostRuntime,
        what: &str,
        first: (&mut A, u32),
        second: (&mut B, u32),
        b: u32,
    ) -> io::Result<()> {
        let mirror = Mirror {
            k: WIDTH,
            v: VALUES,
            b,
            side: Side::First,
            first: Room {
                kind: A::kind(),
                most: first.1,
            },
            second: Room {
                kind: B::kind(),
                most: second.1,
            },
            mixed: Vec::from_slice(rt.alloc(), self.mixed)?,
            list: Vec::new(rt.alloc()),
        };
        let pair = Pair {
            permutation: self.permutation,
            first: first.0,
            second: second.0,
            mirror,
        };
        pair.operate(rt, what)
    }

    /// Two plain tables, two packed ones, and one of each in both orders.
    fn all_pairs(&self, rt: &HostRuntime) -> io::Result<()> {
        let mut plain = PlainTable::set_up(vec![in rt.alloc(); 7u64; 512]?);
        let mut more = PlainTable::set_up(vec![in rt.alloc(); 9u64; 1024]?);
        let mut packed = PackedTable::set_up(vec![in rt.alloc(); 7u64; 50]?);
        let mut dense = PackedTable::set_up(vec![in rt.alloc(); 9u64; 30]?);
        self.pair(rt, "plain tables", (&mut plain, 5), (&mut more, 6), 1)?;
        more.clear();
        plain.clear();
        self.pair(rt, "packed tables", (&mut packed, 7), (&mut dense, 6), 4)?;
        packed.clear();
        dense.clear();
        self.pair(
            rt,
            "plain, then packed",
            (&mut more, 6),
            (&mut packed, 7),
            4,
        )?;
        more.clear();
        dense.clear();
        self.pair(rt, "packed, then plain", (&mut dense, 6), (&mut more, 6), 4)
    }
}

/// The lists of operations of a permutation, under its name; one wrong case where it is not set up.
fn mixed<P: Permutation + Drop>(
    rt: &HostRuntime,
    what: &str,
    permutation: Result<P, SetUpRefusal>,
    mixed: &[u64],
) -> io::Result<()> {
    println!(rt; "{what}")?;
    let Ok(permutation) = &permutation else {
        let mut tally = Tally::new();
        tally.unmade(rt)?;
        return tally.show(rt, what);
    };
    Setting { permutation, mixed }.all_pairs(rt)
}

/// A multiplication and an addition.
fn affine() -> Result<Affine, SetUpRefusal> {
    Affine::new(WIDTH, 77, 30)
}

/// The same, and then an XOR with a shift.
fn chain() -> Result<Chain<Affine, XorShift>, SetUpRefusal> {
    Chain::new(affine()?, XorShift::new(WIDTH, 3)?)
}

/// Runs all of it.
pub fn run(rt: &HostRuntime) -> io::Result<()> {
    let numbers = added_up(rt.alloc(), 1, 0)?;
    mixed(rt, "identity", Identity::new(WIDTH), &numbers)?;
    let numbers = added_up(rt.alloc(), 77, 30)?;
    mixed(rt, "affine", affine(), &numbers)?;
    let numbers = folded(rt.alloc(), &numbers, 3)?;
    mixed(rt, "affine, then xor-shift", chain(), &numbers)
}
