ghost use Rattle.std.specs.Prelude.{◌≡◌, ◌+◌, ◌-◌, ◌/◌, ◌%◌, ◌^◌, ◌<◌, ◌≤◌};
ghost use Rattle.table.specs.Slots.{slot as slot_in, quotient as quotient_in};
ghost use Rattle.table.specs.Joined.{joined};

use crate::shape::Shape;

/// Where a permuted key number stands in a table: its slot, and what is stored of it there.
#[derive(Clone, Copy, PartialEq, Eq, Debug)]
pub struct Place {
    pub slot: u64,
    pub quotient: u64,
}

impl Place {
    // The place of a permuted key number, of which the quotient is the `low` lowest bits.
    fn cut(low: u32, y: u64) -> Place
        requires { low ≤ 32 }
        ensures slot { result.slot ≡ y / 2 ^ low }
        ensures quotient { result.quotient ≡ y % 2 ^ low }
    {
        let size = 1u64 << low;
        Place {
            slot: y / size,
            quotient: y % size,
        }
    }
}

impl Shape {
    /// The place of a permuted key number.
    pub fn place(&self, y: u64) -> Place
        ensures slot { result.slot ≡ slot_in self.now.k self.now.b y }
        ensures quotient { result.quotient ≡ quotient_in self.now.k self.now.b y }
    {
        Place::cut(self.k - self.b, y)
    }

    /// Its place in a table with twice as many slots.
    pub fn place_in_twice(&self, y: u64) -> Place
        ensures slot { result.slot ≡ slot_in self.now.k (self.now.b + 1) y }
        ensures quotient { result.quotient ≡ quotient_in self.now.k (self.now.b + 1) y }
    {
        Place::cut(self.k - (self.b + 1), y)
    }

    /// The permuted key number that stands at a place.
    pub fn join(&self, place: Place) -> u64
        ensures value { place.slot < 2 ^ 32 → place.quotient < 2 ^ (self.now.k - self.now.b) → result ≡ joined self.now.k self.now.b place.slot place.quotient }
    {
        (place.slot << (self.k - self.b)).wrapping_add(place.quotient)
    }
}
