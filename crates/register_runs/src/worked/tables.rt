//! Full groups, enlargements, and what is made of tables.
use crate::machine::Machine;
use crate::mirror::{by_table, refused_at};
use crate::report::Report;
use crate::settings::{packed_table, plain_table};
use crate::worked::{LAST_PITCH, PITCH, nights, stopped};
use expected::clear::is_clear;
use model::answer::Answer::{Entry, Number, Refused, Value};
use model::call::Call::{At, Cancel, Count, Enlarge, Find, Open, Take};
use model::refusal::Refusal;
use permutation::Identity;
use register::Side;
use std::io;
use table::refusal::TableRefusal;
use table::table::Table;

pub fn full_groups(report: &mut Report<'_>) -> io::Result<()> {
    let steps = [
        (Open(5), Number(5)),
        (Take(PITCH, 48, 5), Number(48)),
        (Take(PITCH + 48, 1, 5), stopped(0, TableRefusal::Full)),
        (Take(LAST_PITCH, 1, 5), Number(1)),
        (Cancel(LAST_PITCH, 1, 5), Number(1)),
        (Take(PITCH + 48, 1, 5), stopped(0, TableRefusal::Full)),
        (Cancel(PITCH + 20, 1, 5), Number(1)),
        (Take(PITCH + 48, 2, 5), stopped(1, TableRefusal::Full)),
        (Take(PITCH + 48, 1, 5), Number(1)),
        (Count, Number(48)),
    ];
    report.on_packed(&steps)?;
    report.ended("the 49th entry of a packed group")?;
    let steps = [
        (Open(4), Number(4)),
        (Take(PITCH, 15, 5), Number(15)),
        (Take(PITCH + 15, 1, 5), stopped(0, TableRefusal::Full)),
        (Take(LAST_PITCH, 1, 5), Number(1)),
        (Cancel(LAST_PITCH, 1, 5), Number(1)),
        (Take(PITCH + 15, 1, 5), stopped(0, TableRefusal::Full)),
        (Cancel(PITCH + 9, 1, 5), Number(1)),
        (Take(PITCH + 15, 2, 5), stopped(1, TableRefusal::Full)),
        (Take(PITCH + 15, 1, 5), Number(1)),
        (Count, Number(15)),
    ];
    report.on_plain(&steps)?;
    report.ended("the 16th entry of a plain slot")
}

pub fn opened_twice(report: &mut Report<'_>) -> io::Result<()> {
    let steps = [
        (Open(32), by_table(TableRefusal::DoesNotFit)),
        (Take(PITCH + 732, 1, 0), refused_at(0, Refusal::UnknownKey)),
        (Take(PITCH, 1, 0), refused_at(0, Refusal::UnknownValue)),
        (Take(PITCH, 1, 5), refused_at(0, Refusal::Closed)),
        (Cancel(PITCH, 1, 5), refused_at(0, Refusal::Closed)),
        (Find(PITCH + 732), Refused(Refusal::UnknownKey)),
        (Find(PITCH), Refused(Refusal::Closed)),
        (At(0), Refused(Refusal::Closed)),
        (Enlarge, Refused(Refusal::Closed)),
        (Count, Number(0)),
        (Open(4), Number(4)),
        (Open(5), Refused(Refusal::AlreadyOpen)),
        (Open(32), Refused(Refusal::AlreadyOpen)),
    ];
    report.on_both("closed, and opened twice", &steps)
}

pub fn unequal_widths(report: &mut Report<'_>) -> io::Result<()> {
    let steps = [
        (Count, Number(0)),
        (Open(4), Refused(Refusal::PermutationWidth)),
        (Open(32), Refused(Refusal::PermutationWidth)),
        (Take(PITCH, 1, 5), refused_at(0, Refusal::Closed)),
        (Count, Number(0)),
    ];
    for width in [19, 21] {
        let Ok(same) = Identity::new(width) else {
            return report.unmade();
        };
        let one = packed_table(report.rt, 150)?;
        let other = plain_table(report.rt, 1030)?;
        report.follow(nights(same, one, other), &steps)?;
    }
    report.ended("a permutation of another width")
}

pub fn enlarged(report: &mut Report<'_>) -> io::Result<()> {
    let steps = [
        (Open(4), Number(4)),
        (Take(LAST_PITCH, 2, 9), Number(2)),
        (Take(PITCH, 3, 7), Number(3)),
        (Enlarge, Number(5)),
        (Enlarge, Number(6)),
        (Find(PITCH), Value(7)),
        (Find(PITCH + 2), Value(7)),
        (Find(LAST_PITCH + 1), Value(9)),
        (Count, Number(5)),
        (At(0), Entry(PITCH, 7)),
        (At(3), Entry(LAST_PITCH, 9)),
    ];
    report.on_both("two enlargements in a row", &steps)?;
    let Ok(same) = Identity::new(20) else {
        return report.unmade();
    };
    let steps = [
        (Open(4), Number(4)),
        (Take(PITCH, 16, 7), Number(16)),
        (Enlarge, by_table(TableRefusal::Full)),
        (Count, Number(16)),
        (Cancel(PITCH, 1, 7), Number(1)),
        (Enlarge, Number(5)),
        (Enlarge, Number(6)),
        (Enlarge, by_table(TableRefusal::DoesNotFit)),
        (Find(PITCH + 15), Value(7)),
    ];
    let one = packed_table(report.rt, 150)?;
    let other = plain_table(report.rt, 1030)?;
    report.follow(nights(same, one, other), &steps)?;
    report.ended("enlargements without room or fit")
}

/// Tables that were formed and filled are cleared by the register that is made of them.
pub fn filled_before(report: &mut Report<'_>) -> io::Result<()> {
    let Ok(same) = Identity::new(20) else {
        return report.unmade();
    };
    let mut one = packed_table(report.rt, 150)?;
    let mut other = plain_table(report.rt, 1030)?;
    let formed = one.form(20, 24, 5).is_ok() && other.form(20, 24, 6).is_ok();
    report.part.count(formed && one.add(3, 17, 9).is_ok() && other.add(3, 17, 9).is_ok());
    report
        .part
        .count(!is_clear(one.words()) && !is_clear(other.words()));
    let register = nights(same, one, other);
    report.part.count(
        is_clear(register.words(Side::First)) && is_clear(register.words(Side::Second)),
    );
    let steps = [
        (Count, Number(0)),
        (Open(5), Number(5)),
        (At(0), Refused(Refusal::NoSuchPlace)),
        (Find(98_321), by_table(TableRefusal::Absent)),
        (Take(98_321, 1, 8), Number(1)),
        (Find(98_321), Value(8)),
    ];
    report.follow(register, &steps)?;
    report.ended("tables that were filled before")
}
