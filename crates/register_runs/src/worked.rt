//! Worked examples: calls, and the answers that they must have.
use crate::machine::Machine;
use crate::mirror::refused_at;
use crate::report::Report;
use crate::settings::{packed_table, plain_table};
use coding::{BookingCoding, NightCoding};
use model::answer::Answer;
use model::call::Call;
use model::refusal::Refusal;
use permutation::Identity;
use register::{Parts, Register};
use std::io;
use table::refusal::TableRefusal;
use table::table::Table;

mod runs;
mod tables;

/// The first night of pitch 3, and that of pitch 999.
pub const PITCH: u64 = 3072;

pub const LAST_PITCH: u64 = 1_022_976;

/// Calls and the answers to them.
pub type Steps<'a> = &'a [(Call<u64, u64>, Answer<u64>)];

/// A run that the table refuses at a place.
pub fn stopped(place: u64, why: TableRefusal) -> Answer<u64> {
    refused_at(place, Refusal::Table(why))
}

/// A register of nights over two tables, under the identity.
pub fn nights<A: Table, B: Table>(
    same: Identity,
    first: A,
    second: B,
) -> Register<NightCoding, BookingCoding, Identity, A, B> {
    Register::assemble(Parts {
        keys: NightCoding,
        values: BookingCoding,
        permutation: same,
        first,
        second,
    })
}

impl<'a> Report<'a> {
    /// Puts the calls to a register, and counts which answers are the wanted ones.
    pub fn follow<M: Machine + Drop>(
        &mut self,
        mut machine: M,
        steps: Steps<'_>,
    ) -> io::Result<()> {
        for (call, want) in steps.iter() {
            let got = machine.ask(*call);
            self.expect(got, *want)?;
        }
        Ok(())
    }

    /// Puts the calls to a register of nights over packed tables.
    pub fn on_packed(&mut self, steps: Steps<'_>) -> io::Result<()> {
        let Ok(same) = Identity::new(20) else {
            return self.unmade();
        };
        let one = packed_table(self.rt, 150)?;
        let other = packed_table(self.rt, 290)?;
        self.follow(nights(same, one, other), steps)
    }

    /// Puts the calls to a register of nights over plain tables.
    pub fn on_plain(&mut self, steps: Steps<'_>) -> io::Result<()> {
        let Ok(same) = Identity::new(20) else {
            return self.unmade();
        };
        let one = plain_table(self.rt, 1030)?;
        let other = plain_table(self.rt, 520)?;
        self.follow(nights(same, one, other), steps)
    }

    /// The same calls over packed tables and over plain ones.
    pub fn on_both(&mut self, what: &str, steps: Steps<'_>) -> io::Result<()> {
        self.on_packed(steps)?;
        self.on_plain(steps)?;
        self.ended(what)
    }
}

/// Runs all of it.
pub fn run(report: &mut Report<'_>) -> io::Result<()> {
    runs::held_night(report)?;
    runs::cancelled(report)?;
    runs::lengths_and_values(report)?;
    runs::last_nights(report)?;
    tables::full_groups(report)?;
    tables::opened_twice(report)?;
    tables::unequal_widths(report)?;
    tables::enlarged(report)?;
    runs::cards(report)?;
    tables::filled_before(report)
}
