ghost use Rattle.std.specs.Prelude.{◌≡◌, ℕ, ◌^◌, ◌&&◌, nat_lt};
ghost use Rattle.table.specs.Meaning.{has_slot, in_range};
ghost use Rattle.table.specs.Widths.{bounded, shape_where, widths};

use crate::shape::Shape;

impl Shape {
    /// The shape of these widths, where they are within the bounds of every table.
    pub fn new(k: u32, v: u32, b: u32) -> Option<Shape>
        ensures value { widths result ≡ shape_where (bounded k v b) k v b }
    {
        if k > 32 || v > 32 || b >= k {
            return None;
        }
        Some(Shape { k, v, b })
    }

    /// Whether there is such a slot.
    pub fn has_slot(&self, slot: u64) -> bool
        ensures value { result ≡ has_slot self.now.b slot }
    {
        slot < 1u64 << self.b
    }

    /// Whether there are such a slot and such a quotient.
    pub fn has(&self, slot: u64, quotient: u64) -> bool
        ensures value { result ≡ in_range self.now.k self.now.b slot quotient }
    {
        self.has_slot(slot) && quotient < 1u64 << (self.k - self.b)
    }

    /// Whether there are such a slot and such a quotient, and the value is in range.
    pub fn allows(&self, slot: u64, quotient: u64, value: u64) -> bool
        ensures value { result ≡ (in_range self.now.k self.now.b slot quotient && nat_lt value (2 ^ self.now.v)) }
    {
        self.has(slot, quotient) && value < 1u64 << self.v
    }
}
