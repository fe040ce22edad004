//! The calls that enter a day's stays into the night register.
ghost use Rattle.std.specs.Prelude.{◌≡◌, IfOk};
ghost use Rattle.entering.specs.Calls.{take_of, calls_of};

use arrivals::stay::Stay;
use coding::{Booking, Night};
use model::call::Call;
use std::alloc::{AllocError, Global};
use std::iter::once;

/// The call that takes the nights of a stay under its booking.
fn take_of(stay: Stay) -> Call<Night, Booking>
    ensures value { result ≡ take_of stay }
{
    let first = Night {
        pitch: stay.pitch,
        night: stay.first,
    };
    let booking = Booking {
        number: stay.booking,
    };
    Call::Take(first, stay.nights, booking)
}

/// An open with 2^b slots, and then a take for each stay, in their order.
pub fn calls_of(
    heap: Global,
    b: u32,
    stays: &[Stay],
) -> Result<Vec<Call<Night, Booking>>, AllocError>
    ensures value { IfOk result (λ v. v.items ≡ calls_of b stays.now) }
{
    once(Call::Open(b))
        .chain(stays.iter().map(|stay| take_of(*stay)))
        .collect(heap)
}
