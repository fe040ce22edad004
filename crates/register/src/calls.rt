ghost use Rattle.std.specs.Prelude.{◌≡◌};
ghost use Rattle.model.specs.declared.call.Call.TheVariants.{Open, Find, Count, At, Enlarge};
ghost use Rattle.model.specs.declared.answer.Answer.TheVariants.{Number};
ghost use Rattle.register.specs.Stands.{Same};
ghost use Rattle.register.specs.Answers.{number_answer, value_answer, entry_answer};
ghost use Rattle.register.specs.Promise.{Steps};

use crate::side::Side;
use crate::state::{Opened, Register};
use coding::Coding;
use model::refusal::Refusal;
use permutation::Permutation;
use table::table::Table;

impl<K: Coding, V: Coding, P: Permutation, A: Table, B: Table> Register<K, V, P, A, B> {
    /// Opens a closed register on its first table, with 2^b slots. Answers b.
    pub fn open(&mut self, b: u32) -> Result<u32, Refusal>
        ensures same { Same K.Coding V.Coding P.Permutation A.Table B.Table self.old self.new }
        ensures step { Steps K.Coding V.Coding P.Permutation A.Table B.Table self.old self.new (Open b) (number_answer result) }
    {
        if self.opened.is_some() {
            return Err(Refusal::AlreadyOpen);
        }
        if !self.widths_agree() {
            return Err(Refusal::PermutationWidth);
        }
        self.first.form(self.keys.width(), self.values.width(), b)?;
        self.opened = Some(Opened {
            side: Side::First,
            b,
        });
        Ok(b)
    }

    /// The value that a key is held under.
    pub fn find(&self, key: K::Item) -> Result<V::Item, Refusal>
        ensures step { Steps K.Coding V.Coding P.Permutation A.Table B.Table self.now self.now (Find key) (value_answer result) }
    {
        let Some(m) = self.keys.number(key) else {
            return Err(Refusal::UnknownKey);
        };
        let used = self.in_use()?;
        let w = self.value_number(used, m)?;
        let Some(value) = self.values.item(w) else {
            return Err(Refusal::Unreached);
        };
        Ok(value)
    }

    /// How many keys are held; none while the register is closed.
    pub fn count(&self) -> u64
        ensures step { Steps K.Coding V.Coding P.Permutation A.Table B.Table self.now self.now Count (Number result) }
    {
        self.count
    }

    /// The key number and the value number of the entry at a place, slots upwards and each in order of arrival.
    pub fn at(&self, i: u64) -> Result<(u64, u64), Refusal>
        ensures step { Steps K.Coding V.Coding P.Permutation A.Table B.Table self.now self.now (At i) (entry_answer result) }
    {
        let used = self.in_use()?;
        self.entry_number(used, i).ok_or(Refusal::NoSuchPlace)
    }

    /// Moves all entries into the other table, with twice the slots. Answers the new b.
    pub fn enlarge(&mut self) -> Result<u32, Refusal>
        ensures same { Same K.Coding V.Coding P.Permutation A.Table B.Table self.old self.new }
        ensures step { Steps K.Coding V.Coding P.Permutation A.Table B.Table self.old self.new Enlarge (number_answer result) }
    {
        let used = self.in_use()?;
        self.move_numbers(used)?;
        let b = used.shape.b + 1;
        self.opened = Some(Opened {
            side: used.side.other(),
            b,
        });
        Ok(b)
    }
}
