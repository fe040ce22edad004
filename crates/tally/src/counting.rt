ghost use Rattle.tally.specs.Counted.{counted};
ghost use Rattle.std.specs.Prelude.{◌≡◌, false, ◌==◌, None};

use crate::tally::Tally;
use std::{fmt, io};

impl Tally {
    /// Nothing counted yet.
    pub fn new() -> Tally
        ensures value { result ≡ record { cases = 0; wrong = 0; first = None } }
    {
        Tally {
            cases: 0,
            wrong: 0,
            first: None,
        }
    }

    /// One case more, and whether it came out right.
    pub fn count(&mut self, right: bool)
        ensures after { self.new ≡ counted self.old right }
    {
        self.cases = self.cases.saturating_add(1);
        if !right {
            if self.wrong == 0 {
                self.first = Some(self.cases);
            }
            self.wrong = self.wrong.saturating_add(1);
        }
    }

    /// One case more, where a number was got and another is wanted; prints both where they differ.
    pub fn equal(&mut self, rt: &impl Print, what: &str, got: u64, want: u64) -> io::Result<()>
        ensures after { self.new ≡ counted self.old (got == want) }
    {
        self.count(got == want);
        if got != want {
            println!(rt; "  {what}: {got}, not {want}")?;
        }
        Ok(())
    }

    /// One case more, which came out wrong since something was refused.
    pub fn unmade(&mut self, rt: &impl Print) -> io::Result<()>
        ensures after { self.new ≡ counted self.old false }
    {
        self.count(false);
        println!(rt; "  not set up")
    }

    /// Prints the counts under the name of the group of cases.
    pub fn show(&self, rt: &impl Print, group: &str) -> io::Result<()> {
        println!(rt; "{group}: {self}")
    }
}

impl fmt::Display for Tally {
    fn fmt<W: fmt::Write>(&self, f: &mut fmt::Formatter<W>) -> fmt::Result {
        let cases = self.cases;
        let wrong = self.wrong;
        match self.first {
            None => write!(f, "{cases} cases, {wrong} wrong"),
            Some(first) => write!(
                f,
                "{cases} cases, {wrong} wrong, the first of them case {first}"
            ),
        }
    }
}
