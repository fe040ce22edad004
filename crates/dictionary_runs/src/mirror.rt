//! What a dictionary should answer: a list of what is held, in order of arrival, and formulas for where it stands.
use crate::operation::{Answer, Operation};
use dictionary::Run;
use expected::held::{Held, load, value};
use expected::kind::Kind;
use expected::layout::{Entry, Layout};
use expected::numbers::{power, times};
use model::refusal::Refusal;
use model::run_refusal::RunRefusal;
use std::alloc::{AllocError, Global};
use table::refusal::TableRefusal;

/// What is known here of a table: its kind, and the largest b for its words.
#[derive(Clone, Copy, PartialEq, Eq, Debug)]
pub struct Room {
    pub kind: Kind,
    pub most: u32,
}

// The register has a type like it, and the dictionary stands below the register.
/// One of the two tables.
#[derive(Clone, Copy, PartialEq, Eq, Debug)]
pub enum Side {
    First,
    Second,
}

impl Side {
    /// The other one.
    pub fn other(self) -> Side {
        match self {
            Side::First => Side::Second,
            Side::Second => Side::First,
        }
    }
}

/// A dictionary that is only a list, and the permuted number of each key number.
#[derive(Drop)]
pub struct Mirror {
    pub k: u32,
    pub v: u32,
    pub b: u32,
    pub side: Side,
    pub first: Room,
    pub second: Room,
    pub mixed: Vec<u64>,
    pub list: Vec<Held>,
}

impl Mirror {
    /// A table.
    fn room(&self, side: Side) -> Room {
        match side {
            Side::First => self.first,
            Side::Second => self.second,
        }
    }

    /// What is held of the key at a place of a run, once it is taken.
    fn held(&self, run: Run, place: u64) -> Held {
        let key = run.first.saturating_add(place);
        Held {
            key,
            value: run.value,
            mixed: self.mixed.get(key as usize).copied().unwrap_or(key),
        }
    }

    /// How many quotients a slot has, at b.
    fn quotients(&self, b: u32) -> u64 {
        power(self.k.saturating_sub(b))
    }

    /// How many permuted numbers a group has, at b, in a table of a kind.
    fn group(&self, kind: Kind, b: u32) -> u64 {
        self.quotients(b).saturating_mul(kind.group())
    }

    fn look_up(&self, key: u64) -> Result<u64, TableRefusal> {
        if key >= power(self.k) {
            return Err(TableRefusal::OutOfRange);
        }
        value(&self.list, key).ok_or(TableRefusal::Absent)
    }

    /// What stands against the key at a place of a run, those before it being taken.
    fn against(&self, run: Run, place: u64) -> Result<(), TableRefusal> {
        let Held {
            key,
            value: w,
            mixed,
        } = self.held(run, place);
        if w >= power(self.v) || key >= power(self.k) {
            return Err(TableRefusal::OutOfRange);
        }
        if value(&self.list, key).is_some() {
            return Err(TableRefusal::Held);
        }
        let kind = self.room(self.side).kind;
        let size = self.group(kind, self.b);
        let taken = (0..place)
            .filter(|i| times(self.held(run, *i).mixed, size) == times(mixed, size))
            .count() as u64;
        if load(&self.list, size, mixed).saturating_add(taken) >= kind.limit() {
            return Err(TableRefusal::Full);
        }
        Ok(())
    }

    /// What stands against a run.
    fn may_take(&self, run: Run) -> Result<(), RunRefusal> {
        (0..run.length).try_for_each(|place| {
            let free = self.against(run, place);
            free.map_err(|why| RunRefusal {
                place,
                why: Refusal::Table(why),
            })
        })
    }

    /// Takes a run, if nothing stands against it.
    fn take(&mut self, run: Run) -> Result<Answer, AllocError> {
        let done = self.may_take(run);
        if done.is_ok() {
            for place in 0..run.length {
                let held = self.held(run, place);
                self.list.push(held)?;
            }
        }
        Ok(Answer::Run(done))
    }

    /// What stands against cancelling one key.
    fn against_cancel(&self, key: u64, value: u64) -> Result<(), Refusal> {
        if value >= power(self.v) {
            return Err(Refusal::Table(TableRefusal::OutOfRange));
        }
        if self.look_up(key).map_err(Refusal::Table)? != value {
            return Err(Refusal::OtherValue);
        }
        Ok(())
    }

    /// Cancels a run.
    fn cancel(&mut self, run: Run) -> Result<(), RunRefusal> {
        (0..run.length).try_for_each(|place| {
            let found = self.against_cancel(run.first.saturating_add(place), run.value);
            found.map_err(|why| RunRefusal { place, why })
        })?;
        self.list
            .retain(|e| e.key < run.first || e.key - run.first >= run.length);
        Ok(())
    }

    /// What is held, slots upwards.
    fn walk(&self) -> Result<Vec<Held>, AllocError> {
        let quotients = self.quotients(self.b);
        let mut walk = self.list.clone()?;
        walk.sort_by_key(|e| e.entry(quotients).slot)?;
        Ok(walk)
    }

    /// The entries of the table in use, slots upwards.
    pub fn entries(&self, heap: Global) -> Result<Vec<Entry>, AllocError> {
        let quotients = self.quotients(self.b);
        let mut entries: Vec<Entry> = self.list.iter().map(|e| e.entry(quotients)).collect(heap)?;
        entries.sort_by_key(|e| e.slot)?;
        Ok(entries)
    }

    /// How the table in use stands in its words.
    pub fn layout(&self) -> Layout {
        Layout {
            kind: self.room(self.side).kind,
            quotient: self.k.saturating_sub(self.b),
            value: self.v,
        }
    }

    /// Changes to the other table with one more bit.
    fn enlarge(&mut self) -> Result<(), Refusal> {
        let Room { kind, most } = self.room(self.side.other());
        let b = self.b.saturating_add(1);
        if b > most || b >= self.k {
            return Err(Refusal::Table(TableRefusal::DoesNotFit));
        }
        let size = self.group(kind, b);
        if self
            .list
            .iter()
            .any(|e| load(&self.list, size, e.mixed) > kind.limit())
        {
            return Err(Refusal::Table(TableRefusal::Full));
        }
        self.b = b;
        self.side = self.side.other();
        Ok(())
    }

    /// Any operation.
    pub fn put(&mut self, operation: Operation) -> Result<Answer, AllocError> {
        Ok(match operation {
            Operation::Take(run) => self.take(run)?,
            Operation::Cancel(run) => Answer::Run(self.cancel(run)),
            Operation::LookUp(key) => Answer::Value(self.look_up(key)),
            Operation::Entry(i) => {
                let walk = self.walk()?;
                Answer::Entry(walk.get(i as usize).map(|e| (e.key, e.value)))
            }
            Operation::Enlarge => Answer::Moved(self.enlarge()),
        })
    }
}
