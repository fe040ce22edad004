//! One group's block, changed: the fields behind the place move, and the slot's marks grow or shrink by one.
ghost use Rattle.std.specs.Prelude.{◌≡◌, ◌-◌, length};
ghost use Rattle.bits.specs.Area.{number, field_inserted, field_removed};
ghost use Rattle.blocks.specs.PackedLayout.{width, quotient_area, value_area, with_areas};

use crate::packed::parts;
use bits::fields;
use table::shape::Shape;

/// Puts a quotient and a value in at a place among `count` entries; the marks stay.
pub(crate) fn open_gap(
    block: &mut [u64],
    shape: Shape,
    count: u64,
    place: u64,
    quotient: u64,
    value: u64,
)
    // The length is a premise here and below: a struct with a ghost field cannot hold a `&mut`.
    requires { length block.old ≡ width 1 shape.k shape.v shape.b }
    ensures after { block.new ≡ with_areas shape.k shape.v shape.b block.old
        (field_inserted (shape.k - shape.b) count (number (quotient_area 1 shape.k shape.b block.old)) place quotient)
        (field_inserted shape.v count (number (value_area 1 shape.k shape.b block.old)) place value) }
{
    let middle = parts::middle(shape);
    fields::insert(
        &mut block[1..middle],
        shape.k - shape.b,
        count,
        place,
        quotient,
    );
    fields::insert(&mut block[middle..], shape.v, count, place, value);
}

/// Takes the quotient and the value at a place out of `count` entries; the marks stay.
pub(crate) fn close_gap(block: &mut [u64], shape: Shape, count: u64, place: u64)
    requires { length block.old ≡ width 1 shape.k shape.v shape.b }
    ensures after { block.new ≡ with_areas shape.k shape.v shape.b block.old
        (field_removed (shape.k - shape.b) count (number (quotient_area 1 shape.k shape.b block.old)) place)
        (field_removed shape.v count (number (value_area 1 shape.k shape.b block.old)) place) }
{
    let middle = parts::middle(shape);
    fields::remove(&mut block[1..middle], shape.k - shape.b, count, place);
    fields::remove(&mut block[middle..], shape.v, count, place);
}
