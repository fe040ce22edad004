//! The plain kind: a slot to a block of 16 words, a word to an entry.
ghost use Rattle.std.specs.Prelude.{refl};
ghost use Rattle.blocks.specs.PlainLayout.{plain, Stored};
ghost use Rattle.blocks.specs.PlainLaws.{plain_laws, fit_law, some_room, given_stored};

use crate::kind::Blocks;
use crate::plain::block::{LIMIT, RADIX, WIDTH};
use crate::slot::Slot;
use table::shape::Shape;

mod block;
mod judge;

/// The greatest width of slot numbers.
const WIDEST: u32 = 20;

/// The plain kind of table.
pub struct Plain;

impl Blocks for Plain {
    ghost layout = { plain };

    ghost readable = { λ k v b block. Stored block };

    ghost lawful = { plain_laws };

    ghost grouped = { (0, refl) };

    ghost limited = { some_room };

    ghost fitting = { fit_law };

    ghost given_readable = { given_stored };

    fn slots() -> u64 {
        1
    }

    fn limit() -> u64 {
        LIMIT
    }

    fn shape_for(words: usize, k: u32, v: u32, b: u32) -> Option<Shape> {
        if b > WIDEST || (1usize << b) * WIDTH > words {
            return None;
        }
        Shape::new(k, v, b)
    }

    fn count(shape: Shape) -> usize {
        1usize << shape.b
    }

    fn width(_shape: Shape) -> usize {
        WIDTH
    }

    fn is_given(block: &[u64], shape: Shape) -> bool {
        judge::is_given(block, shape)
    }

    fn load(at: &Slot<'_, Plain>) -> u64 {
        Plain::size(at)
    }

    fn size(at: &Slot<'_, Plain>) -> u64 {
        at.block[0]
    }

    fn place(at: &Slot<'_, Plain>, quotient: u64) -> Option<u64> {
        block::place(at.held(), quotient).map(|i| i as u64)
    }

    fn entry(at: &Slot<'_, Plain>, i: u64) -> (u64, u64) {
        let word = at.block[i as usize + 1];
        (word % RADIX, word / RADIX)
    }

    fn put(block: &mut [u64], _shape: Shape, _slot: u64, quotient: u64, value: u64) {
        let count = block[0];
        block[count as usize + 1] = value * RADIX + quotient;
        block[0] = count + 1;
    }

    fn take_out(block: &mut [u64], _shape: Shape, _slot: u64, i: u64) -> u64 {
        let count = block[0];
        let first = i as usize + 1;
        let value = block[first] / RADIX;
        block::close(&mut block[first..count as usize + 1]);
        block[0] = count - 1;
        value
    }
}
