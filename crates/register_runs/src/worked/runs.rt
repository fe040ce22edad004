//! Runs that are held, cancelled, refused.
use crate::mirror::{by_table, refused_at};
use crate::report::Report;
use crate::settings::{packed_table, plain_table};
use crate::worked::{PITCH, stopped};
use coding::{CardCoding, LoanCoding};
use model::answer::Answer::{Entry, Number, Refused, Value};
use model::call::Call::{At, Cancel, Count, Find, Open, Take};
use model::refusal::Refusal;
use permutation::Identity;
use register::{Parts, Register};
use std::io;
use table::refusal::TableRefusal;

pub fn held_night(report: &mut Report<'_>) -> io::Result<()> {
    let steps = [
        (Open(4), Number(4)),
        (Take(PITCH + 12, 1, 8), Number(1)),
        (Take(PITCH + 10, 4, 9), stopped(2, TableRefusal::Held)),
        (Find(PITCH + 10), by_table(TableRefusal::Absent)),
        (Find(PITCH + 11), by_table(TableRefusal::Absent)),
        (Find(PITCH + 12), Value(8)),
        (Find(PITCH + 13), by_table(TableRefusal::Absent)),
        (Count, Number(1)),
    ];
    report.on_both("nights 10 to 13, with night 12 held", &steps)
}

pub fn cancelled(report: &mut Report<'_>) -> io::Result<()> {
    let steps = [
        (Open(4), Number(4)),
        (Take(PITCH, 3, 7), Number(3)),
        (Cancel(PITCH, 3, 8), refused_at(0, Refusal::OtherValue)),
        (Cancel(PITCH, 4, 7), stopped(3, TableRefusal::Absent)),
        (Cancel(PITCH, 3, 7), Number(3)),
        (Cancel(PITCH, 3, 7), stopped(0, TableRefusal::Absent)),
        (Count, Number(0)),
        (Take(PITCH, 3, 8), Number(3)),
        (At(2), Entry(PITCH + 2, 8)),
        (At(3), Refused(Refusal::NoSuchPlace)),
    ];
    report.on_both("the same cancel twice", &steps)
}

pub fn lengths_and_values(report: &mut Report<'_>) -> io::Result<()> {
    let lengths = [
        (Open(4), Number(4)),
        (Take(PITCH, 0, 7), refused_at(0, Refusal::RunLength)),
        (Take(PITCH, 65, 7), refused_at(0, Refusal::RunLength)),
        (Cancel(PITCH, 0, 7), refused_at(0, Refusal::RunLength)),
        (Cancel(PITCH, 65, 7), refused_at(0, Refusal::RunLength)),
        (Take(PITCH + 732, 65, 0), refused_at(0, Refusal::RunLength)),
        (Take(PITCH, 1, 7), Number(1)),
    ];
    report.on_both("runs of 0 and of 65", &lengths)?;
    let values = [
        (Open(4), Number(4)),
        (Take(PITCH, 1, 0), refused_at(0, Refusal::UnknownValue)),
        (
            Take(PITCH, 1, 10_000_000),
            refused_at(0, Refusal::UnknownValue),
        ),
        (Take(PITCH, 1, 1), Number(1)),
        (Take(PITCH + 1, 1, 9_999_999), Number(1)),
        (Cancel(PITCH, 1, 0), refused_at(0, Refusal::UnknownValue)),
        (Find(PITCH + 1), Value(9_999_999)),
    ];
    report.on_both("bookings 0 and 10,000,000", &values)
}

pub fn last_nights(report: &mut Report<'_>) -> io::Result<()> {
    let steps = [
        (Open(4), Number(4)),
        (Take(PITCH + 730, 3, 5), refused_at(2, Refusal::UnknownKey)),
        (Count, Number(0)),
        (Take(PITCH + 730, 2, 5), Number(2)),
        (Find(PITCH + 731), Value(5)),
        (Find(PITCH + 732), Refused(Refusal::UnknownKey)),
        (Take(PITCH + 730, 3, 5), refused_at(2, Refusal::UnknownKey)),
        (
            Cancel(PITCH + 730, 3, 5),
            refused_at(2, Refusal::UnknownKey),
        ),
    ];
    report.on_both("nights from 730 on", &steps)
}

pub fn cards(report: &mut Report<'_>) -> io::Result<()> {
    let Ok(same) = Identity::new(32) else {
        return report.unmade();
    };
    let steps = [
        (Open(4), Number(4)),
        (Take(0, 1, 6155), refused_at(0, Refusal::UnknownKey)),
        (Cancel(0, 1, 6155), refused_at(0, Refusal::UnknownKey)),
        (Find(0), Refused(Refusal::UnknownKey)),
        (
            Take(4_294_967_295, 2, 6155),
            refused_at(1, Refusal::UnknownKey),
        ),
        (Take(4_294_967_295, 1, 6155), Number(1)),
        (Find(4_294_967_295), Value(6155)),
        (Find(4_294_967_296), Refused(Refusal::UnknownKey)),
        (Take(1, 1, 1464), refused_at(0, Refusal::UnknownValue)),
        (Take(1, 1, 2_047_415), Number(1)),
        (At(0), Entry(1, 2_047_415)),
    ];
    let one = packed_table(report.rt, 150)?;
    let other = plain_table(report.rt, 1030)?;
    let register = Register::assemble(Parts {
        keys: CardCoding,
        values: LoanCoding,
        permutation: same,
        first: one,
        second: other,
    });
    report.follow(register, &steps)?;
    report.ended("card 0, and the last card")
}
