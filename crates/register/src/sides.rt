ghost use Rattle.std.specs.Prelude.{◌≡◌, ℕ, ◌^◌, ◌<◌, ◌++◌};
ghost use Rattle.table.specs.Meaning.{value_in, answer_of};
ghost use Rattle.model.specs.Entries.{run_of, without_run, cancel_refusal};
ghost use Rattle.model.specs.Model.{Model, State, opened as open_as, slot_of};
ghost use Rattle.model.specs.Step.{take_judged};
ghost use Rattle.dictionary.specs.Results.{listed_at};
ghost use Rattle.register.specs.Fixed.{fixed};
ghost use Rattle.register.specs.Stands.{Stands, Same};
ghost use Rattle.register.specs.Numbers.{other_side, Chosen, Finds, Reached, RunEnds, MoveEnds};

use crate::in_use::InUse;
use crate::side::Side;
use crate::state::Register;
use coding::Coding;
use dictionary::{Addressing, Run, redistribute};
use model::refusal::Refusal;
use model::run_refusal::RunRefusal;
use permutation::Permutation;
use table::refusal::TableRefusal;
use table::shape::Shape;
use table::table::Table;

impl Side {
    // The other side.
    pub(crate) fn other(self) -> Side
        ensures { result ≡ other_side self }
    {
        match self {
            Side::First => Side::Second,
            Side::Second => Side::First,
        }
    }
}

impl<K: Coding, V: Coding, P: Permutation, A: Table, B: Table> Register<K, V, P, A, B> {
    // A match on the side in each of these: the tables have two types, a closure cannot be generic over which it is given, and a type parameter takes no `dyn Table`.

    // The table in use, and its widths.
    pub(crate) fn in_use(&self) -> Result<InUse, Refusal>
        ensures { (m : Model) → Stands K.Coding V.Coding P.Permutation A.Table B.Table self.now m
            → Finds K.Coding V.Coding P.Permutation A.Table B.Table self.now m result }
    {
        let opened = self.opened.ok_or(Refusal::Closed)?;
        let shape = Shape::new(self.keys.width(), self.values.width(), opened.b).ok_or(
            Refusal::Unreached,
        )?;
        Ok(InUse {
            side: opened.side,
            shape,
        })
    }

    // The value number that a key number is held under.
    pub(crate) fn value_number(&self, used: InUse, m: u64) -> Result<u64, TableRefusal>
        ensures { (t : State) → Stands K.Coding V.Coding P.Permutation A.Table B.Table self.now (open_as t)
            → Chosen K.Coding V.Coding P.Permutation A.Table B.Table self.now t used
            → m < 2 ^ (K.Coding.width self.now.keys) → result ≡ answer_of (value_in t.list m) }
    {
        let by = Addressing {
            permutation: &self.permutation,
            shape: used.shape,
        };
        match used.side {
            Side::First => by.look_up(&self.first, m),
            Side::Second => by.look_up(&self.second, m),
        }
    }

    // The entry at a place of the walk, as numbers.
    pub(crate) fn entry_number(&self, used: InUse, i: u64) -> Option<(u64, u64)>
        ensures { (t : State) → Stands K.Coding V.Coding P.Permutation A.Table B.Table self.now (open_as t)
            → Chosen K.Coding V.Coding P.Permutation A.Table B.Table self.now t used
            → result ≡ listed_at (slot_of (fixed K.Coding V.Coding P.Permutation A.Table B.Table self.now) t.b) t.b t.list i }
    {
        let by = Addressing {
            permutation: &self.permutation,
            shape: used.shape,
        };
        match used.side {
            Side::First => by.entry_at(&self.first, i),
            Side::Second => by.entry_at(&self.second, i),
        }
    }

    // The key numbers of a run into the table in use, all of them or none.
    pub(crate) fn take_numbers(&mut self, used: InUse, run: Run) -> Result<(), RunRefusal>
        ensures same { Same K.Coding V.Coding P.Permutation A.Table B.Table self.old self.new }
        ensures ends { (t : State) → Stands K.Coding V.Coding P.Permutation A.Table B.Table self.old (open_as t)
            → Chosen K.Coding V.Coding P.Permutation A.Table B.Table self.old t used
            → Reached (fixed K.Coding V.Coding P.Permutation A.Table B.Table self.old) run.first run.length run.value
            → RunEnds K.Coding V.Coding P.Permutation A.Table B.Table self.old self.new t (t.list ++ run_of run.first run.value run.length)
            (take_judged (fixed K.Coding V.Coding P.Permutation A.Table B.Table self.old) t run.first run.length run.value) result }
    {
        let by = Addressing {
            permutation: &self.permutation,
            shape: used.shape,
        };
        match used.side {
            Side::First => by.take_run(&mut self.first, run),
            Side::Second => by.take_run(&mut self.second, run),
        }
    }

    // The key numbers of a run out of the table in use, all of them or none.
    pub(crate) fn cancel_numbers(&mut self, used: InUse, run: Run) -> Result<(), RunRefusal>
        ensures same { Same K.Coding V.Coding P.Permutation A.Table B.Table self.old self.new }
        ensures ends { (t : State) → Stands K.Coding V.Coding P.Permutation A.Table B.Table self.old (open_as t)
            → Chosen K.Coding V.Coding P.Permutation A.Table B.Table self.old t used
            → Reached (fixed K.Coding V.Coding P.Permutation A.Table B.Table self.old) run.first run.length run.value
            → RunEnds K.Coding V.Coding P.Permutation A.Table B.Table self.old self.new t (without_run run.first run.length t.list)
            (cancel_refusal t.list run.first run.value 0 run.length) result }
    {
        let by = Addressing {
            permutation: &self.permutation,
            shape: used.shape,
        };
        match used.side {
            Side::First => by.cancel_run(&mut self.first, run),
            Side::Second => by.cancel_run(&mut self.second, run),
        }
    }

    // All entries into the table that is not in use, with one more bit of slots; the one they came from is cleared.
    pub(crate) fn move_numbers(&mut self, used: InUse) -> Result<(), Refusal>
        ensures same { Same K.Coding V.Coding P.Permutation A.Table B.Table self.old self.new }
        ensures ends { (t : State) → Stands K.Coding V.Coding P.Permutation A.Table B.Table self.old (open_as t)
            → Chosen K.Coding V.Coding P.Permutation A.Table B.Table self.old t used
            → MoveEnds K.Coding V.Coding P.Permutation A.Table B.Table self.old self.new t result }
    {
        match used.side {
            Side::First => redistribute(&mut self.first, &mut self.second, used.shape),
            Side::Second => redistribute(&mut self.second, &mut self.first, used.shape),
        }
    }
}
