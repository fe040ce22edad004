//! What the check of an arrival list finds.
ghost use Rattle.std.specs.Prelude.{Some};
ghost use Rattle.arrivals.specs.Texts.{night_fault_text, no_booking_text};

use std::fmt;

/// Why the nights of a stay are not all listed.
#[derive(Clone, Copy, PartialEq, Eq, Debug)]
pub enum NightFault {
    /// A stay has 1 to 64 nights.
    Length,
    /// The pitch, which does not exist.
    NoPitch(u64),
    /// The first night of the stay that does not exist.
    NoNight(u64),
}

/// The booking of a stay, which does not exist.
#[derive(Clone, Copy, PartialEq, Eq, Debug)]
pub struct NoBooking {
    pub booking: u64,
}

/// What is found of one stay: how many of its nights, from the first on, exist; why the others are not listed; and whether its booking exists.
#[derive(Clone, Copy, PartialEq, Eq, Debug)]
pub struct Findings {
    pub listed: u64,
    pub fault: Option<NightFault>,
    pub booked: bool,
}

/// How many stays, nights and faults an arrival list has, how many nights were entered, and how many entries the fullest group then held.
#[derive(Clone, Copy, PartialEq, Eq, Debug)]
pub struct Totals {
    pub stays: u64,
    pub nights: u64,
    pub faults: u64,
    pub entered: u64,
    pub fullest: u64,
}

impl fmt::Display for NightFault {
    ghost output = { λ fault. Some (night_fault_text fault) };

    fn fmt<W: fmt::Write>(&self, f: &mut fmt::Formatter<W>) -> fmt::Result {
        match self {
            NightFault::Length => write!(f, "a stay has 1 to 64 nights"),
            NightFault::NoPitch(pitch) => {
                write!(f, "there is no pitch {pitch}: pitches are 0 to 999")
            }
            NightFault::NoNight(night) => {
                write!(f, "there is no night {night}: nights are 0 to 731")
            }
        }
    }
}

impl fmt::Display for NoBooking {
    ghost output = { λ fault. Some (no_booking_text fault) };

    fn fmt<W: fmt::Write>(&self, f: &mut fmt::Formatter<W>) -> fmt::Result {
        write!(
            f,
            "there is no booking {}: bookings are 1 to 9999999",
            self.booking
        )
    }
}
