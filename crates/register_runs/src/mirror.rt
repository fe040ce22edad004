//! What a register should answer: a list of what is held, in order of arrival, and formulas for where it stands.
use crate::items::Sort;
use crate::rules::{Mix, Store};
use dictionary::Run;
use expected::held::{Held, load, value};
use expected::layout::Entry;
use expected::numbers::{power, times};
use model::answer::Answer;
use model::call::Call;
use model::refusal::Refusal;
use model::run_refusal::RunRefusal;
use register::{Parts, Side};
use std::alloc::{AllocError, Global};
use table::refusal::TableRefusal;

/// What the formulas are told of each part of a register.
pub type Formulas = Parts<Sort, Sort, Mix, Store, Store>;

// The register has a type and an `other` like these, which are not public.
/// Of an open register: the table in use, which has 2^b slots.
#[derive(Clone, Copy, PartialEq, Eq, Debug)]
pub struct Opened {
    pub side: Side,
    pub b: u32,
}

/// A register that is only a list.
#[derive(Drop)]
pub struct Mirror {
    pub parts: Formulas,
    pub opened: Option<Opened>,
    pub list: Vec<Held>,
}

/// A run that is refused at a place.
pub fn refused_at(place: u64, why: Refusal) -> Answer<u64> {
    Answer::RefusedAt(RunRefusal { place, why })
}

/// A call that the table refuses.
pub fn by_table(why: TableRefusal) -> Answer<u64> {
    Answer::Refused(Refusal::Table(why))
}

/// The table that is not in use.
fn other(side: Side) -> Side {
    match side {
        Side::First => Side::Second,
        Side::Second => Side::First,
    }
}

/// The answer to a call that is done or refused.
fn answer(done: Result<Answer<u64>, Refusal>) -> Answer<u64> {
    done.unwrap_or_else(Answer::Refused)
}

/// The answer to a run.
fn run_answer(run: Run, done: Result<(), RunRefusal>) -> Answer<u64> {
    done.map_or_else(Answer::RefusedAt, |_| Answer::Number(run.length))
}

impl Mirror {
    /// Closed.
    pub fn new(heap: Global, parts: Formulas) -> Mirror {
        Mirror {
            parts,
            opened: None,
            list: Vec::new(heap),
        }
    }

    /// The first table or the second.
    pub fn store(&self, side: Side) -> Store {
        match side {
            Side::First => self.parts.first,
            Side::Second => self.parts.second,
        }
    }

    /// The table in use, and its b; a closed register has none.
    fn in_use(&self) -> Result<Opened, Refusal> {
        self.opened.ok_or(Refusal::Closed)
    }

    /// How many bits the number of a slot has; none while it is closed.
    pub fn bits(&self) -> u32 {
        self.opened.map_or(0, |opened| opened.b)
    }

    /// How many quotients a slot has, at b.
    fn quotients(&self, b: u32) -> u64 {
        power(self.parts.keys.width().saturating_sub(b))
    }

    /// How many permuted numbers a group has, at b.
    fn group(&self, store: Store, b: u32) -> u64 {
        self.quotients(b).saturating_mul(store.kind.group())
    }

    fn open(&mut self, b: u32) -> Result<Answer<u64>, Refusal> {
        let k = self.parts.keys.width();
        if self.opened.is_some() {
            return Err(Refusal::AlreadyOpen);
        }
        if self.parts.permutation.width != k {
            return Err(Refusal::PermutationWidth);
        }
        if !self.parts.first.fits(k, self.parts.values.width(), b) {
            return Err(Refusal::Table(TableRefusal::DoesNotFit));
        }
        self.opened = Some(Opened {
            side: Side::First,
            b,
        });
        Ok(Answer::Number(u64::from(b)))
    }

    /// Refuses a number that no key has.
    fn known(&self, key: u64) -> Result<(), Refusal> {
        if !self.parts.keys.has(key) {
            return Err(Refusal::UnknownKey);
        }
        Ok(())
    }

    /// What stands against a run before its keys are looked for; else the table in use.
    fn read(&self, run: Run) -> Result<Opened, RunRefusal> {
        if run.length == 0 || run.length > 64 {
            return Err(RunRefusal {
                place: 0,
                why: Refusal::RunLength,
            });
        }
        (0..run.length).try_for_each(|place| {
            let known = self.known(run.first.saturating_add(place));
            known.map_err(|why| RunRefusal { place, why })
        })?;
        if !self.parts.values.has(run.value) {
            return Err(RunRefusal {
                place: 0,
                why: Refusal::UnknownValue,
            });
        }
        self.in_use().map_err(|why| RunRefusal { place: 0, why })
    }

    /// What is held of the key at a place of a run, once it is taken.
    fn held(&self, run: Run, place: u64) -> Held {
        let key = run.first.saturating_add(place);
        Held {
            key,
            value: run.value,
            mixed: self.parts.permutation.of(key),
        }
    }

    /// What stands against the key at a place of a run, those before it being taken.
    fn against(&self, run: Run, place: u64, opened: Opened) -> Result<(), Refusal> {
        let Held { key, mixed, .. } = self.held(run, place);
        if value(&self.list, key).is_some() {
            return Err(Refusal::Table(TableRefusal::Held));
        }
        let store = self.store(opened.side);
        let size = self.group(store, opened.b);
        let taken = (0..place)
            .filter(|i| times(self.held(run, *i).mixed, size) == times(mixed, size))
            .count() as u64;
        if load(&self.list, size, mixed).saturating_add(taken) >= store.kind.limit() {
            return Err(Refusal::Table(TableRefusal::Full));
        }
        Ok(())
    }

    /// What stands against a run.
    fn may_take(&self, run: Run) -> Result<(), RunRefusal> {
        let opened = self.read(run)?;
        (0..run.length).try_for_each(|place| {
            let free = self.against(run, place, opened);
            free.map_err(|why| RunRefusal { place, why })
        })
    }

    /// Takes a run, if nothing stands against it.
    fn take(&mut self, run: Run) -> Result<Answer<u64>, AllocError> {
        let done = self.may_take(run);
        if done.is_ok() {
            for place in 0..run.length {
                let held = self.held(run, place);
                self.list.push(held)?;
            }
        }
        Ok(run_answer(run, done))
    }

    /// What stands against cancelling one key.
    fn against_cancel(&self, key: u64, w: u64) -> Result<(), Refusal> {
        if value(&self.list, key).ok_or(Refusal::Table(TableRefusal::Absent))? != w {
            return Err(Refusal::OtherValue);
        }
        Ok(())
    }

    /// Cancels a run.
    fn cancel(&mut self, run: Run) -> Result<(), RunRefusal> {
        self.read(run)?;
        (0..run.length).try_for_each(|place| {
            let found = self.against_cancel(run.first.saturating_add(place), run.value);
            found.map_err(|why| RunRefusal { place, why })
        })?;
        self.list
            .retain(|e| e.key < run.first || e.key - run.first >= run.length);
        Ok(())
    }

    fn find(&self, m: u64) -> Result<Answer<u64>, Refusal> {
        self.known(m)?;
        self.in_use()?;
        let found = value(&self.list, m).ok_or(Refusal::Table(TableRefusal::Absent))?;
        Ok(Answer::Value(found))
    }

    /// What is held, slots upwards.
    fn walk(&self) -> Result<Vec<Held>, AllocError> {
        let quotients = self.quotients(self.bits());
        let mut walk = self.list.clone()?;
        walk.sort_by_key(|e| e.entry(quotients).slot)?;
        Ok(walk)
    }

    /// The entries of the table in use, slots upwards.
    pub fn entries(&self, heap: Global) -> Result<Vec<Entry>, AllocError> {
        let quotients = self.quotients(self.bits());
        let mut entries: Vec<Entry> = self.list.iter().map(|e| e.entry(quotients)).collect(heap)?;
        entries.sort_by_key(|e| e.slot)?;
        Ok(entries)
    }

    /// The entry at a place of the walk.
    fn at(&self, walk: &[Held], i: u64) -> Result<Answer<u64>, Refusal> {
        self.in_use()?;
        let e = walk.get(i as usize).ok_or(Refusal::NoSuchPlace)?;
        Ok(Answer::Entry(e.key, e.value))
    }

    /// Changes to the other table, with one more bit of slots.
    fn enlarge(&mut self) -> Result<Answer<u64>, Refusal> {
        let Opened { side, b } = self.in_use()?;
        let side = other(side);
        let store = self.store(side);
        let b = b.saturating_add(1);
        if !store.fits(self.parts.keys.width(), self.parts.values.width(), b) {
            return Err(Refusal::Table(TableRefusal::DoesNotFit));
        }
        let size = self.group(store, b);
        if self
            .list
            .iter()
            .any(|e| load(&self.list, size, e.mixed) > store.kind.limit())
        {
            return Err(Refusal::Table(TableRefusal::Full));
        }
        self.opened = Some(Opened { side, b });
        Ok(Answer::Number(u64::from(b)))
    }

    /// Any of the seven calls.
    pub fn put(&mut self, call: Call<u64, u64>) -> Result<Answer<u64>, AllocError> {
        Ok(match call {
            Call::Open(b) => answer(self.open(b)),
            Call::Take(first, length, value) => self.take(Run {
                first,
                length,
                value,
            })?,
            Call::Cancel(first, length, value) => {
                let run = Run {
                    first,
                    length,
                    value,
                };
                run_answer(run, self.cancel(run))
            }
            Call::Find(m) => answer(self.find(m)),
            Call::Count => Answer::Number(self.list.len() as u64),
            Call::At(i) => answer(self.at(&self.walk()?, i)),
            Call::Enlarge => answer(self.enlarge()),
        })
    }
}
