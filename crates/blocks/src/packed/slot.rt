//! One slot of a group's block, read: its entries are as many fields as it has marks, from the number of marks before it on.
ghost use Rattle.std.specs.Prelude.{◌≡◌, ◌<◌, length, slice_index_or};
ghost use Rattle.blocks.specs.Slots.{entries_in};

use crate::packed::{Packed, parts};
use crate::slot::Slot;
use bits::{fields, marks};

impl Slot<'_, Packed> {
    /// The quotient at a place.
    pub(crate) fn quotient(&self, i: u64) -> u64
        requires { i < length (entries_in self.now) }
        ensures value { result ≡ (slice_index_or (entries_in self.now) i (0, 0)).0 }
    {
        fields::read(
            parts::quotients(self.block, self.shape),
            self.shape.k - self.shape.b,
            marks::before(self.block[0], self.slot) + i,
        )
    }

    /// The value at a place.
    pub(crate) fn value(&self, i: u64) -> u64
        requires { i < length (entries_in self.now) }
        ensures value { result ≡ (slice_index_or (entries_in self.now) i (0, 0)).1 }
    {
        fields::read(
            parts::values(self.block, self.shape),
            self.shape.v,
            marks::before(self.block[0], self.slot) + i,
        )
    }
}
