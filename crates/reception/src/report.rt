//! What the program prints of each line of an arrival list, and of each night that it enters.
use crate::show::Said;
use arrivals::findings::{Findings, NoBooking, Totals};
use arrivals::lines::read_stay;
use arrivals::mix::mix;
use arrivals::stay::Stay;
use permutation::Permutation;
use std::io;
use table::place::Place;
use table::refusal::TableRefusal;
use table::shape::Shape;
use table::table::Table;

/// A table that the nights of a list are entered into, scrambled, and what is counted of the list.
#[derive(Drop)]
pub struct NightTable<P, T> {
    permutation: P,
    table: T,
    shape: Shape,
    totals: Totals,
}

impl<P: Permutation + Drop, T: Table + Drop> NightTable<P, T> {
    /// A formed table of this shape, and nothing counted yet.
    pub fn new(permutation: P, table: T, shape: Shape) -> NightTable<P, T> {
        NightTable {
            permutation,
            table,
            shape,
            totals: Totals::none(),
        }
    }

    /// Puts a booking into the table, and says how full its group then is.
    fn enter(&mut self, place: Place, booking: u64) -> Result<u64, TableRefusal> {
        self.table.add(place.slot, place.quotient, booking)?;
        self.table.load(place.slot)
    }

    /// Prints how a key number is scrambled and where it then stands.
    fn report_place(&self, rt: &impl Print, key: u64) -> io::Result<Place> {
        let mixed = mix(&self.permutation, key);
        let place = self.shape.place(mixed.scrambled);
        println!(rt;
            "    scrambled {}, which goes back to {}",
            mixed.scrambled, mixed.back
        )?;
        print!(rt; "    slot {} quotient {}: ", place.slot, place.quotient)?;
        Ok(place)
    }

    /// Enters a booking at a place, prints what came of it, and counts it.
    fn report_entry(&mut self, rt: &impl Print, place: Place, booking: u64) -> io::Result<()> {
        let outcome = self.enter(place, booking);
        match outcome {
            Ok(load) => {
                println!(rt;
                    "entered, and its group holds {load} of {}",
                    self.table.limit()
                )?
            }
            Err(refusal) => println!(rt; "fault: {}", Said(refusal))?,
        }
        self.totals.add_outcome(outcome);
        Ok(())
    }

    /// Prints each night of a stay that exists, and enters it where nothing is wrong with the stay.
    fn report_nights(&mut self, rt: &impl Print, stay: Stay, findings: Findings) -> io::Result<()> {
        let keys = (0..findings.listed).map_while(|place| stay.key_number(place));
        for (night, key) in (stay.first..).zip(keys) {
            println!(rt; "  pitch {} night {night}: key number {key}", stay.pitch)?;
            let place = self.report_place(rt, key)?;
            if findings.is_sound() {
                self.report_entry(rt, place, stay.booking)?;
            } else {
                println!(rt; "not entered")?;
            }
        }
        Ok(())
    }

    /// Prints what came of one line, and counts it.
    fn report_line(&mut self, rt: &impl Print, number: u64, line: &[u8]) -> io::Result<()> {
        match read_stay(line) {
            Ok(None) => Ok(()),
            Ok(Some(stay)) => {
                let findings = stay.check();
                self.totals.add_stay(findings);
                println!(rt; "{stay}")?;
                self.report_nights(rt, stay, findings)?;
                report_faults(rt, stay, findings)
            }
            Err(fault) => {
                self.totals.add_unread();
                println!(rt; "line {number} cannot be read: {fault}")
            }
        }
    }

    /// Prints what came of each line of a list, and then the totals.
    pub fn report_list(&mut self, rt: &impl Print, list: &str) -> io::Result<()> {
        for (number, line) in (1u64..).zip(list.lines()) {
            self.report_line(rt, number, line.as_bytes())?;
        }
        let totals = self.totals;
        println!(rt;
            "{} stays, {} nights, {} faults",
            totals.stays, totals.nights, totals.faults
        )?;
        println!(rt;
            "{} nights entered, the fullest group holds {} of {}",
            totals.entered,
            totals.fullest,
            self.table.limit()
        )
    }
}

/// Prints what is wrong with a stay.
fn report_faults(rt: &impl Print, stay: Stay, findings: Findings) -> io::Result<()> {
    if let Some(fault) = findings.fault {
        println!(rt; "  fault: {fault}")?;
    }
    if !findings.booked {
        let fault = NoBooking {
            booking: stay.booking,
        };
        println!(rt; "  fault: {fault}")?;
    }
    Ok(())
}
