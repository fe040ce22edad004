//! The cases of a group of permutations, each counted, and printed where it came out wrong.
use permutation::{Permutation, SetUpRefusal};
use std::io;
use tally::tally::Tally;

/// The cases so far.
#[derive(Drop)]
pub struct Cases<'a> {
    rt: &'a HostRuntime,
    tally: Tally,
}

impl<'a> Cases<'a> {
    /// None yet.
    pub fn new(rt: &'a HostRuntime) -> Cases<'a> {
        Cases {
            rt,
            tally: Tally::new(),
        }
    }

    /// That a number is the wanted one.
    pub fn equal(&mut self, what: &str, got: u64, want: u64) -> io::Result<()> {
        self.tally.equal(self.rt, what, got, want)
    }

    /// That a set-up is refused as wanted, or made.
    pub fn refused(
        &mut self,
        got: Option<SetUpRefusal>,
        want: Option<SetUpRefusal>,
    ) -> io::Result<()> {
        self.tally.count(got == want);
        if got != want {
            println!(self.rt; "  set-up: {got:?}, not {want:?}")?;
        }
        Ok(())
    }

    /// That something could not be set up.
    pub fn unmade(&mut self) -> io::Result<()> {
        self.tally.unmade(self.rt)
    }

    /// That n goes to y, and y comes from n.
    pub fn there_and_back<P: Permutation>(&mut self, p: &P, n: u64, y: u64) -> io::Result<()> {
        self.equal("forth", p.forth(n), y)?;
        self.equal("back", p.back(y), n)
    }

    /// That each number stays.
    pub fn stays<P: Permutation>(&mut self, p: &P, numbers: &[u64]) -> io::Result<()> {
        for n in numbers {
            self.there_and_back(p, *n, *n)?;
        }
        Ok(())
    }

    /// That some numbers past all those below a power of 2 stay.
    pub fn stays_past<P: Permutation>(&mut self, p: &P, size: u64) -> io::Result<()> {
        let past = [
            size,
            size.saturating_add(1),
            size.saturating_mul(2),
            u64::MAX,
        ];
        self.stays(p, &past)
    }

    /// Prints the counts under the name of the group.
    pub fn show(&self, group: &str) -> io::Result<()> {
        self.tally.show(self.rt, group)
    }
}
