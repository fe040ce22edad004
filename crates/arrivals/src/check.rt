//! The check of a stay, and the count of what was found.
ghost use Rattle.std.specs.Prelude.{◌≡◌, ◌+◌, ◌^◌, ◌<◌, ◌≤◌};
ghost use Rattle.coding.specs.Bookings.{booking_exists};
ghost use Rattle.coding.specs.Nights.{night_exists};
ghost use Rattle.arrivals.specs.Stays.{existing, key_number, fault_after, fault_count, found, sound_stay, counted, unread, with_outcome};

use crate::findings::{Findings, NightFault, Totals};
use crate::stay::Stay;
use coding::{Booking, BookingCoding, Coding, Night, NightCoding};
use table::refusal::TableRefusal;

/// The longest stay that is booked in one line.
const MOST_NIGHTS: u64 = 64;

/// Whether there is such a pitch and such a night.
fn night_exists(pitch: u64, night: u64) -> bool
    ensures value { result ≡ night_exists pitch night }
{
    NightCoding.number(Night { pitch, night }).is_some()
}

/// Whether there can be such a booking.
fn booking_exists(number: u64) -> bool
    ensures value { result ≡ booking_exists number }
{
    BookingCoding.number(Booking { number }).is_some()
}

impl Stay {
    /// The key number of one night of the stay, the first being 0; none where that night does not exist.
    pub fn key_number(self, place: u64) -> Option<u64>
        ensures value { result ≡ key_number self place }
    {
        let night = self.first.checked_add(place)?;
        NightCoding.number(Night {
            pitch: self.pitch,
            night,
        })
    }

    /// Whether one night of the stay exists, the first being 0.
    fn has_night(self, place: u64) -> bool
        ensures value { result ≡ night_exists self.pitch (self.first + place) }
    {
        self.key_number(place).is_some()
    }

    /// How many nights of the stay, from the first on, exist.
    fn nights_listed(self) -> u64
        ensures value { result ≡ existing self.pitch self.first self.nights }
        ensures bound { self.first + result < 2 ^ 64 }
    {
        (0..self.nights)
            .find(|place| !self.has_night(*place))
            .unwrap_or(self.nights)
    }

    /// Why the nights after the first few, which exist, are not listed.
    fn fault_after(self, listed: u64) -> Option<NightFault>
        requires { self.first + listed < 2 ^ 64 }
        ensures value { result ≡ fault_after self listed }
    {
        if listed == self.nights {
            return None;
        }
        if night_exists(self.pitch, 0) {
            Some(NightFault::NoNight(self.first + listed))
        } else {
            Some(NightFault::NoPitch(self.pitch))
        }
    }

    /// What is found of the stay.
    pub fn check(self) -> Findings
        ensures value { result ≡ found self }
    {
        let booked = booking_exists(self.booking);
        if self.nights == 0 || self.nights > MOST_NIGHTS {
            return Findings {
                listed: 0,
                fault: Some(NightFault::Length),
                booked,
            };
        }
        let listed = self.nights_listed();
        let fault = self.fault_after(listed);
        Findings {
            listed,
            fault,
            booked,
        }
    }
}

impl Findings {
    /// How many faults the stay has.
    fn fault_count(self) -> u64
        ensures value { result ≡ fault_count self }
        ensures bound { result ≤ 2 }
    {
        let nights = u64::from(self.fault.is_some());
        nights + u64::from(!self.booked)
    }

    /// Whether nothing is wrong with the stay, so that it may be entered.
    pub fn is_sound(self) -> bool
        ensures value { result ≡ sound_stay self }
    {
        self.fault_count() == 0
    }
}

impl Totals {
    /// Nothing counted yet.
    pub fn none() -> Totals
        ensures value { result ≡ record { stays = 0; nights = 0; faults = 0; entered = 0; fullest = 0 } }
    {
        Totals {
            stays: 0,
            nights: 0,
            faults: 0,
            entered: 0,
            fullest: 0,
        }
    }

    /// One stay more, of which this was found.
    pub fn add_stay(&mut self, findings: Findings)
        ensures after { self.new ≡ counted self.old findings }
    {
        self.stays = self.stays.saturating_add(1);
        self.nights = self.nights.saturating_add(findings.listed);
        self.faults = self.faults.saturating_add(findings.fault_count());
    }

    /// One line more that cannot be read.
    pub fn add_unread(&mut self)
        ensures after { self.new ≡ unread self.old }
    {
        self.faults = self.faults.saturating_add(1);
    }

    /// One night more that was entered, or refused.
    pub fn add_outcome(&mut self, outcome: Result<u64, TableRefusal>)
        ensures after { self.new ≡ with_outcome self.old outcome }
    {
        match outcome {
            Ok(load) => {
                self.entered = self.entered.saturating_add(1);
                self.fullest = self.fullest.max(load);
            }
            Err(_) => self.add_unread(),
        }
    }
}
