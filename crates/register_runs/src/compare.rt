//! A register beside the list that it is compared with.
use crate::machine::Machine;
use crate::mirror::{Formulas, Mirror};
use crate::report::{Report, is};
use expected::clear::is_clear;
use model::answer::Answer;
use model::call::Call;
use register::{Parts, Side};
use std::io;

/// A register, and the list.
#[derive(Drop)]
pub struct Pair<M: Machine + Drop> {
    machine: M,
    pub mirror: Mirror,
}

impl<M: Machine + Drop> Pair<M> {
    /// A register of these parts, which is closed.
    pub fn new(report: &Report<'_>, machine: M, parts: Formulas) -> Pair<M> {
        let mirror = Mirror::new(report.rt.alloc(), parts);
        Pair { machine, mirror }
    }

    /// Whether a table has the words of the list where it is in use, and zeros where it is not.
    fn has_words(&self, report: &Report<'_>, side: Side) -> io::Result<bool> {
        let words = self.machine.words(side);
        let store = self.mirror.store(side);
        if words.len() as u64 != store.words {
            return Ok(false);
        }
        let used = self.mirror.opened.filter(|opened| opened.side == side);
        let Some(opened) = used else {
            return Ok(is_clear(words));
        };
        let Parts { keys, values, .. } = self.mirror.parts;
        let entries = self.mirror.entries(report.rt.alloc())?;
        let layout = store.layout(keys.width(), values.width(), opened.b);
        Ok(layout.has_words(&entries, words))
    }

    /// Whether both tables have the words of the list.
    pub fn same_words(&self, report: &Report<'_>) -> io::Result<bool> {
        Ok(self.has_words(report, Side::First)? && self.has_words(report, Side::Second)?)
    }

    /// Puts a call to both, and counts whether the answers are alike and both tables have the list's words.
    pub fn put(
        &mut self,
        report: &mut Report<'_>,
        call: Call<u64, u64>,
    ) -> io::Result<Answer<u64>> {
        let got = self.machine.ask(call);
        let want = self.mirror.put(call)?;
        let words = self.same_words(report)?;
        let right = is(got, want) && words;
        report.part.count(right);
        if !right && report.part.wrong == 1 {
            report.tell("answered", got)?;
            report.tell("wanted", want)?;
            println!(report.rt; "  words as wanted: {words}")?;
        }
        Ok(got)
    }
}
