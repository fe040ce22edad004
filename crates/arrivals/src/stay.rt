//! What one line of an arrival list says, and what is wrong with one that cannot be read.
ghost use Rattle.std.specs.Prelude.{Some};
ghost use Rattle.arrivals.specs.Texts.{field_name, line_fault_text, stay_text};

use std::fmt;

/// One stay: a pitch for a number of nights from a first one on, under a booking. Nothing says yet that any of it exists.
#[derive(Clone, Copy, PartialEq, Eq, Debug)]
pub struct Stay {
    pub pitch: u64,
    pub first: u64,
    pub nights: u64,
    pub booking: u64,
}

/// The numbers of a stay, in the order in which a line has them.
#[derive(Clone, Copy, PartialEq, Eq, Debug)]
pub enum Field {
    Pitch,
    First,
    Nights,
    Booking,
}

/// What is wrong with a line that cannot be read.
#[derive(Clone, Copy, PartialEq, Eq, Debug)]
pub enum LineFault {
    Missing(Field),
    NotANumber(Field),
    TooMany,
}

impl fmt::Display for Stay {
    ghost output = { λ stay. Some (stay_text stay) };

    fn fmt<W: fmt::Write>(&self, f: &mut fmt::Formatter<W>) -> fmt::Result {
        let nights = if self.nights == 1 { "night" } else { "nights" };
        write!(
            f,
            "booking {}: pitch {}, {} {nights} from night {}",
            self.booking, self.pitch, self.nights, self.first
        )
    }
}

impl fmt::Display for Field {
    ghost output = { λ field. Some (field_name field) };

    fn fmt<W: fmt::Write>(&self, f: &mut fmt::Formatter<W>) -> fmt::Result {
        match self {
            Field::Pitch => write!(f, "pitch"),
            Field::First => write!(f, "first night"),
            Field::Nights => write!(f, "number of nights"),
            Field::Booking => write!(f, "booking"),
        }
    }
}

impl fmt::Display for LineFault {
    ghost output = { λ fault. Some (line_fault_text fault) };

    fn fmt<W: fmt::Write>(&self, f: &mut fmt::Formatter<W>) -> fmt::Result {
        match self {
            LineFault::Missing(field) => write!(f, "the {field} is missing"),
            LineFault::NotANumber(field) => write!(f, "the {field} is not a number below 2^64"),
            LineFault::TooMany => write!(f, "there is something after the booking"),
        }
    }
}
