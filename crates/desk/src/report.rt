//! What the program prints of each line of an arrival list, and of the whole.
use crate::show::Said;
use arrivals::lines::read_stay;
use arrivals::stay::Stay;
use coding::Booking;
use entering::outcomes::outcome_at;
use entering::totals::Totals;
use model::answer::Answer;
use model::run_refusal::RunRefusal;
use std::io;

/// A word for one thing, or for any other number of them.
fn word(n: u64, one: &'static str, many: &'static str) -> &'static str {
    if n == 1 { one } else { many }
}

/// Prints a stay and what came of it.
fn report_stay(rt: &impl Print, stay: Stay, outcome: Result<u64, RunRefusal>) -> io::Result<()> {
    print!(rt; "{stay} -> ")?;
    match outcome {
        Ok(n) => println!(rt; "taken {n}"),
        Err(refusal) => {
            println!(rt;
                "refused {} at place {} ({})",
                refusal.why.number(),
                refusal.place,
                Said(refusal.why)
            )
        }
    }
}

/// Prints the totals.
fn report_totals(rt: &impl Print, totals: Totals, held: u64) -> io::Result<()> {
    println!(rt;
        "{} {}, {} taken, {} refused, {} {} not read",
        totals.stays,
        word(totals.stays, "stay", "stays"),
        totals.taken,
        totals.refused,
        totals.unread,
        word(totals.unread, "line", "lines")
    )?;
    println!(rt; "{held} {} held", word(held, "night", "nights"))
}

/// Prints what came of each line of a list, in its order, and then the totals.
pub fn report_list(
    rt: &impl Print,
    list: &str,
    answers: &[Answer<Booking>],
    held: u64,
) -> io::Result<()> {
    let mut totals = Totals::none();
    for (number, line) in (1u64..).zip(list.lines()) {
        match read_stay(line.as_bytes()) {
            Ok(None) => {}
            Ok(Some(stay)) => {
                // The stays that are counted so far are those before this one.
                let outcome = outcome_at(answers, totals.stays);
                totals.add_stay(outcome);
                report_stay(rt, stay, outcome)?;
            }
            Err(fault) => {
                totals.add_unread();
                println!(rt; "line {number} cannot be read: {fault}")?;
            }
        }
    }
    report_totals(rt, totals, held)
}
