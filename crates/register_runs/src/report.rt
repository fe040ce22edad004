//! The cases of the runs, counted and printed.
use expected::refusals::number;
use model::answer::Answer;
use model::refusal::Refusal;
use std::{fmt, io};
use tally::tally::Tally;

/// The cases of a group, and those of all groups before it.
#[derive(Drop)]
pub struct Report<'a> {
    pub rt: &'a HostRuntime,
    pub part: Tally,
    total: Tally,
}

/// An answer, as it is printed.
#[derive(Clone, Copy)]
pub struct Told(pub Answer<u64>);

impl fmt::Display for Told {
    fn fmt<W: fmt::Write>(&self, f: &mut fmt::Formatter<W>) -> fmt::Result {
        match self.0 {
            Answer::Number(n) => write!(f, "{n}"),
            Answer::Value(w) => write!(f, "the value {w}"),
            Answer::Entry(m, w) => write!(f, "the key {m} and the value {w}"),
            Answer::Refused(e) => write!(f, "refused with {}", e.number()),
            Answer::RefusedAt(e) => write!(f, "refused with {} at {}", e.why.number(), e.place),
        }
    }
}

/// Why a call was refused.
fn refusal(answer: Answer<u64>) -> Option<Refusal> {
    match answer {
        Answer::Refused(why) => Some(why),
        Answer::RefusedAt(e) => Some(e.why),
        _ => None,
    }
}

/// Whether an answer is the wanted one, and its refusal has its number.
pub fn is(got: Answer<u64>, want: Answer<u64>) -> bool {
    got == want && refusal(got).is_none_or(|why| why.number() == number(why))
}

impl<'a> Report<'a> {
    /// Nothing counted yet.
    pub fn new(rt: &'a HostRuntime) -> Report<'a> {
        Report {
            rt,
            part: Tally::new(),
            total: Tally::new(),
        }
    }

    /// Counts whether an answer is the wanted one, and prints both where it is not.
    pub fn expect(&mut self, got: Answer<u64>, want: Answer<u64>) -> io::Result<()> {
        let right = is(got, want);
        self.part.count(right);
        if !right {
            self.tell("answered", got)?;
            self.tell("  wanted", want)?;
        }
        Ok(())
    }

    /// Prints an answer.
    pub fn tell(&self, what: &str, answer: Answer<u64>) -> io::Result<()> {
        println!(self.rt; "  {what}: {}", Told(answer))
    }

    /// Counts a case that came out wrong since something was refused.
    pub fn unmade(&mut self) -> io::Result<()> {
        self.part.unmade(self.rt)
    }

    /// Prints the counts of a group of cases, adds them to those of all, and begins a group.
    pub fn ended(&mut self, what: &str) -> io::Result<()> {
        let Tally {
            cases,
            wrong,
            first,
        } = self.part;
        self.total.cases = self.total.cases.saturating_add(cases);
        self.total.wrong = self.total.wrong.saturating_add(wrong);
        self.total.first = self.total.first.or(first);
        self.part.show(self.rt, what)?;
        self.part = Tally::new();
        Ok(())
    }

    /// How many cases there were in all groups.
    pub fn cases(&self) -> u64 {
        self.total.cases
    }

    /// Prints the counts of all groups.
    pub fn show(&self, what: &str) -> io::Result<()> {
        self.total.show(self.rt, what)
    }
}
