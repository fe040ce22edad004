//! The items that a register's keys and values stand for. A field may hold any `u64`; which items exist is for their coding to say.

/// A pitch on one night: a key of the night register.
#[derive(Clone, Copy, PartialEq, Eq, Debug)]
pub struct Night {
    pub pitch: u64,
    pub night: u64,
}

/// A barrier card: a key of the card register.
#[derive(Clone, Copy, PartialEq, Eq, Debug)]
pub struct Card {
    pub number: u64,
}

/// A booking: a value of the night register.
#[derive(Clone, Copy, PartialEq, Eq, Debug)]
pub struct Booking {
    pub number: u64,
}

/// What a barrier card was lent for: a pitch up to a last night, with the deposit paid or not. A value of the card register.
#[derive(Clone, Copy, PartialEq, Eq, Debug)]
pub struct Loan {
    pub pitch: u64,
    pub last: u64,
    pub paid: bool,
}
