//! Bookings in 24 bits: a booking's number is its own.
ghost use Rattle.coding.specs.Bookings.{first_booking, last_booking};
ghost use Rattle.std.proofs.Common.{rules};

use crate::items::Booking;
use crate::ranged::Ranged;

/// The bookings 1 to 9,999,999.
#[derive(Clone, Copy)]
pub struct BookingCoding;

impl Ranged for BookingCoding {
    type Item = Booking;

    ghost WIDTH = { 24 };

    ghost FIRST = { first_booking };

    ghost LAST = { last_booking };

    ghost number_of = { λ x. x.number };

    ghost item_of = { λ n. record { number = n } };

    ghost narrow = { Prim.search rules };

    ghost within = { Prim.search rules };

    ghost back = { Prim.search rules };

    ghost forth = { Prim.search rules };

    const WIDTH: u32 = 24;
    /// There is no booking 0.
    const FIRST: u64 = 1;
    /// Seven digits.
    const LAST: u64 = 9_999_999;

    fn number_of(x: Booking) -> u64 {
        x.number
    }

    fn item_of(n: u64) -> Booking {
        Booking { number: n }
    }
}
