//! The packed kind: a group of 16 slots to a block of words, which holds unary marks, packed quotients and packed values.
ghost use Rattle.std.specs.Prelude.{refl};
ghost use Rattle.blocks.specs.PackedLayout.{packed_table, MarkedBlock};
ghost use Rattle.blocks.specs.Stored.{marked_given};
ghost use Rattle.blocks.specs.PackedLaws.{packed_laws, fit_law, some_room};

use crate::kind::Blocks;
use crate::packed::parts::{LIMIT, SLOTS};
use crate::slot::Slot;
use bits::marks;
use std::marker::PhantomData;
use table::shape::Shape;

mod change;
mod judge;
mod parts;
mod slot;

/// The least width of slot numbers, at which there is one group.
const NARROWEST: u32 = 4;

/// The greatest width of slot numbers.
const WIDEST: u32 = 20;

/// The packed kind of table.
pub struct Packed;

impl Blocks for Packed {
    ghost layout = { packed_table };

    ghost readable = { λ k v b block. MarkedBlock k v b block };

    ghost lawful = { packed_laws };

    ghost grouped = { (4, refl) };

    ghost limited = { some_room };

    ghost fitting = { fit_law };

    ghost given_readable = { λ k v b block h g. marked_given k v b block g };

    fn slots() -> u64 {
        SLOTS
    }

    fn limit() -> u64 {
        LIMIT
    }

    fn shape_for(words: usize, k: u32, v: u32, b: u32) -> Option<Shape> {
        if b < NARROWEST || b > WIDEST {
            return None;
        }
        let shape = Shape::new(k, v, b)?;
        if Packed::count(shape) * parts::width(shape) > words {
            return None;
        }
        Some(shape)
    }

    fn count(shape: Shape) -> usize {
        1usize << shape.b.saturating_sub(NARROWEST)
    }

    fn width(shape: Shape) -> usize {
        parts::width(shape)
    }

    fn is_given(block: &[u64], shape: Shape) -> bool {
        judge::is_given(block, shape)
    }

    fn load(at: &Slot<'_, Packed>) -> u64 {
        marks::load(at.block[0])
    }

    fn size(at: &Slot<'_, Packed>) -> u64 {
        marks::size(at.block[0], at.slot)
    }

    fn place(at: &Slot<'_, Packed>, quotient: u64) -> Option<u64> {
        (0..Packed::size(at)).find(|i| at.quotient(*i) == quotient)
    }

    fn entry(at: &Slot<'_, Packed>, i: u64) -> (u64, u64) {
        (at.quotient(i), at.value(i))
    }

    fn put(block: &mut [u64], shape: Shape, slot: u64, quotient: u64, value: u64) {
        let word = block[0];
        let place = marks::before(word, slot) + marks::size(word, slot);
        change::open_gap(block, shape, marks::load(word), place, quotient, value);
        block[0] = marks::add(word, slot);
    }

    fn take_out(block: &mut [u64], shape: Shape, slot: u64, i: u64) -> u64 {
        let value = Slot {
            block,
            shape,
            slot,
            kind: PhantomData::<Packed>,
        }
        .value(i);
        let word = block[0];
        let place = marks::before(word, slot) + i;
        change::close_gap(block, shape, marks::load(word), place);
        block[0] = marks::remove(word, slot);
        value
    }
}
