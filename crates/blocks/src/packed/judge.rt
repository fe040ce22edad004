//! Whether some content gives a block.
ghost use Rattle.std.specs.Prelude.{◌≡◌, ℕ, ◌-◌, ◌*◌, ◌/◌, ◌^◌, ◌<◌, [], length, Decides, slice_index_or};
ghost use Rattle.bits.specs.Area.{number};
ghost use Rattle.table.specs.Meaning.{Good, total};
ghost use Rattle.table.specs.Checking.{Given};
ghost use Rattle.blocks.specs.Slots.{entries_in};
ghost use Rattle.blocks.specs.PackedLayout.{width, quotient_area, value_area, slots_of, packed_table, MarkedBlock};

use crate::kind::Blocks;
use crate::packed::parts::{LIMIT, SLOTS};
use crate::packed::{Packed, parts};
use crate::slot::Slot;
use bits::marks;
use bits::zeros::is_zero_from;
use std::marker::PhantomData;
use table::shape::Shape;

/// Whether the quotients of a slot are apart: each stands first at its own place.
fn apart(at: &Slot<'_, Packed>) -> bool
    ensures value { Decides result (Good (at.now.shape.k - at.now.shape.b) at.now.shape.v (entries_in at.now)) }
{
    (0..Packed::size(at)).all(|i| Packed::place(at, at.quotient(i)) == Some(i))
}

/// Whether the quotients of every slot are apart.
fn all_apart(block: &[u64], shape: Shape) -> bool
    requires { MarkedBlock shape.k shape.v shape.b block.now }
    ensures value { Decides result ((j : ℕ) → j < 16 → Good (shape.k - shape.b) shape.v (slice_index_or (slots_of 1 shape.k shape.v shape.b block.now) j [])) }
{
    (0..SLOTS).all(
        |slot| -> bool
            requires marked { MarkedBlock shape.k shape.v shape.b block.now }
            requires below { slot < 16 }
        {
            apart(&Slot {
                block,
                shape,
                slot,
                kind: PhantomData,
            })
        },
    )
}

/// Whether a block's areas are zero past as many fields as it has marks.
fn clean(block: &[u64], shape: Shape) -> bool
    requires { MarkedBlock shape.k shape.v shape.b block.now }
    ensures value { Decides result
        ((number (quotient_area 1 shape.k shape.b block.now) / 2 ^ (total (slots_of 1 shape.k shape.v shape.b block.now) * (shape.k - shape.b)) ≡ 0)
        × (number (value_area 1 shape.k shape.b block.now) / 2 ^ (total (slots_of 1 shape.k shape.v shape.b block.now) * shape.v) ≡ 0)) }
{
    let count = marks::load(block[0]);
    if !is_zero_from(
        parts::quotients(block, shape),
        count * (shape.k - shape.b) as u64,
    ) {
        return false;
    }
    is_zero_from(parts::values(block, shape), count * shape.v as u64)
}

/// Whether some content gives this block.
pub(crate) fn is_given(block: &[u64], shape: Shape) -> bool
    requires { length block.now ≡ width 1 shape.k shape.v shape.b }
    ensures value { Decides result (Given packed_table shape.k shape.v shape.b block.now) }
{
    if !marks::is_marks(block[0], SLOTS, LIMIT) {
        return false;
    }
    if !clean(block, shape) {
        return false;
    }
    all_apart(block, shape)
}
