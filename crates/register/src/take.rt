ghost use Rattle.model.specs.declared.call.Call.TheVariants.{Take};
ghost use Rattle.register.specs.Stands.{Same};
ghost use Rattle.register.specs.Answers.{run_answer};
ghost use Rattle.register.specs.Promise.{Steps};

use crate::state::Register;
use coding::Coding;
use model::run_refusal::RunRefusal;
use permutation::Permutation;
use table::table::Table;

impl<K: Coding, V: Coding, P: Permutation, A: Table, B: Table> Register<K, V, P, A, B> {
    /// Takes the n keys from this one on under a value, all of them or none. Answers n.
    pub fn take(&mut self, key: K::Item, n: u64, value: V::Item) -> Result<u64, RunRefusal>
        ensures same { Same K.Coding V.Coding P.Permutation A.Table B.Table self.old self.new }
        ensures step { Steps K.Coding V.Coding P.Permutation A.Table B.Table self.old self.new (Take key n value) (run_answer result) }
    {
        let run = self.read_run(key, n, value)?;
        let used = self.in_use().map_err(|e| e.at(0))?;
        self.take_numbers(used, run)?;
        self.count = self.count.saturating_add(n);
        Ok(n)
    }
}
