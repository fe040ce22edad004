//! What a register speaks of, as numbers: a coding gives each valid item of one type a number of a fixed width, and takes the number back.
//! `Coding` is the interface. The items are nights, cards, bookings and loans, each with a coding of its own.
#![tactic(auto)]

ghost use Rattle.std.specs.Prelude.{◌≡◌, ℕ, ◌^◌, ◌<◌, ◌≤◌, Some, Option};

pub mod bookings;
pub mod cards;
pub mod items;
pub mod laws;
pub mod loans;
pub mod nights;
mod ranged;

pub use bookings::BookingCoding;
pub use cards::CardCoding;
pub use items::{Booking, Card, Loan, Night};
pub use loans::LoanCoding;
pub use nights::NightCoding;

/// Numbers for the items of one type: some of them are valid, and each of these has a number of its own below 2^width.
pub trait Coding {
    type Item: Copy;

    ghost width: { Self → ℕ };

    ghost number: { Self → Self.Item → Option ℕ };

    ghost item: { Self → ℕ → Option Self.Item };

    /// How many bits a number has, 32 at most.
    fn width(&self) -> u32
        ensures value { result ≡ width self.now };

    /// The number of a valid item, and none for any other.
    fn number(&self, x: Self::Item) -> Option<u64>
        ensures value { result ≡ number self.now x };

    /// The valid item that has this number, and none where no valid item has it.
    fn item(&self, n: u64) -> Option<Self::Item>
        ensures value { result ≡ item self.now n };

    ghost narrow: { (s : Self) → width s ≤ 32 };

    ghost below: { (s : Self) (x : Self.Item) (n : ℕ) → number s x ≡ Some n → n < 2 ^ width s };

    ghost back: { (s : Self) (x : Self.Item) (n : ℕ) → number s x ≡ Some n → item s n ≡ Some x };

    ghost forth: { (s : Self) (x : Self.Item) (n : ℕ) → item s n ≡ Some x → number s x ≡ Some n };
}
