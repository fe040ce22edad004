//! Items by numbers, those that do not exist too.
use coding::{Booking, Card, Loan, Night};

/// The sorts of items.
#[derive(Clone, Copy, PartialEq, Eq, Debug)]
pub enum Sort {
    Nights,
    Cards,
    Bookings,
    Loans,
}

impl Sort {
    /// How many bits a number has.
    pub fn width(self) -> u32 {
        match self {
            Sort::Nights => 20,
            Sort::Cards => 32,
            Sort::Bookings => 24,
            Sort::Loans => 21,
        }
    }

    /// Whether an item has the number.
    pub fn has(self, n: u64) -> bool {
        match self {
            Sort::Nights => n / 1024 < 1000 && n % 1024 < 732,
            Sort::Cards => 0 < n && n < 4_294_967_296,
            Sort::Bookings => 0 < n && n < 10_000_000,
            Sort::Loans => n / 2048 < 1000 && n % 2048 < 1464,
        }
    }
}

/// Items that are written down by a number; where no item has the number, it is one that does not exist.
pub trait Spelled {
    fn spelled(n: u64) -> Self;
}

/// Items whose numbers are answered.
pub trait Numbered {
    /// The number that it is written down by.
    fn number(&self) -> u64;
}

impl Spelled for Night {
    fn spelled(n: u64) -> Night {
        if n < 1_048_576 {
            Night {
                pitch: n / 1024,
                night: n % 1024,
            }
        } else {
            Night {
                pitch: n % 1024,
                night: n / 1024,
            }
        }
    }
}

impl Spelled for Card {
    fn spelled(n: u64) -> Card {
        Card { number: n }
    }
}

impl Spelled for Booking {
    fn spelled(n: u64) -> Booking {
        Booking { number: n }
    }
}

impl Numbered for Booking {
    fn number(&self) -> u64 {
        self.number
    }
}

impl Spelled for Loan {
    fn spelled(n: u64) -> Loan {
        Loan {
            pitch: n / 2048,
            last: n / 2 % 1024,
            paid: n % 2 == 1,
        }
    }
}

impl Numbered for Loan {
    fn number(&self) -> u64 {
        if self.last > 1023 {
            return u64::MAX;
        }
        let until = self.pitch.saturating_mul(1024).saturating_add(self.last);
        until.saturating_mul(2).saturating_add(u64::from(self.paid))
    }
}
