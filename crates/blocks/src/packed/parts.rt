//! The parts of a block: one word of marks, then the quotients, then the values, each from a word on.
ghost use Rattle.std.specs.Prelude.{◌≡◌, ◌+◌, ◌-◌, ◌≤◌, length};
ghost use Rattle.blocks.specs.PackedLayout.{room, width as wide, quotient_area, value_area};

use table::shape::Shape;

/// How many slots make a group.
pub(crate) const SLOTS: u64 = 16;

/// How many entries a group may hold.
pub(crate) const LIMIT: u64 = 48;

/// How many words the fields of a full group take, `width` bits each.
fn area(width: u32) -> usize
    requires { width ≤ 32 }
    ensures value { result ≡ room 1 width }
    ensures bound { result ≤ 24 }
{
    (LIMIT as usize * width as usize + 63) / 64
}

/// Where the values of a block begin.
pub(crate) fn middle(shape: Shape) -> usize
    ensures value { result ≡ 1 + room 1 (shape.k - shape.b) }
    ensures bound { result ≤ 25 }
{
    1 + area(shape.k - shape.b)
}

/// How many words a block has.
pub(crate) fn width(shape: Shape) -> usize
    ensures value { result ≡ wide 1 shape.k shape.v shape.b }
    ensures bound { result ≤ 49 }
{
    middle(shape) + area(shape.v)
}

/// The words of a block's quotients.
pub(crate) fn quotients(block: &[u64], shape: Shape) -> &[u64]
    requires { length block.now ≡ wide 1 shape.k shape.v shape.b }
    ensures value { result.now ≡ quotient_area 1 shape.k shape.b block.now }
{
    &block[1..middle(shape)]
}

/// The words of a block's values.
pub(crate) fn values(block: &[u64], shape: Shape) -> &[u64]
    requires { length block.now ≡ wide 1 shape.k shape.v shape.b }
    ensures value { result.now ≡ value_area 1 shape.k shape.b block.now }
{
    &block[middle(shape)..]
}
