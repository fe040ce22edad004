ghost use Rattle.std.specs.Prelude.{◌≡◌};
ghost use Rattle.register.specs.Stands.{Same};
ghost use Rattle.register.specs.Answers.{either};
ghost use Rattle.register.specs.Promise.{Steps, Continues};

use crate::state::Register;
use coding::Coding;
use model::answer::Answer;
use model::call::Call;
use permutation::Permutation;
use table::table::Table;

impl<K: Coding, V: Coding, P: Permutation, A: Table, B: Table> Register<K, V, P, A, B> {
    /// Makes any of the seven calls.
    pub fn put(&mut self, call: Call<K::Item, V::Item>) -> Answer<V::Item>
        ensures same { Same K.Coding V.Coding P.Permutation A.Table B.Table self.old self.new }
        ensures step { Steps K.Coding V.Coding P.Permutation A.Table B.Table self.old self.new call result }
        ensures promise { Continues K.Coding V.Coding P.Permutation A.Table B.Table self.old self.new call result }
    {
        self.made(call).unwrap_or_else(|refused| refused)
    }

    // The call's answer: as an error where it is a refusal.
    fn made(&mut self, call: Call<K::Item, V::Item>) -> Result<Answer<V::Item>, Answer<V::Item>>
        ensures same { Same K.Coding V.Coding P.Permutation A.Table B.Table self.old self.new }
        ensures step { Steps K.Coding V.Coding P.Permutation A.Table B.Table self.old self.new call (either result) }
    {
        Ok(match call {
            Call::Open(b) => Answer::Number(self.open(b)? as u64),
            Call::Take(key, n, value) => Answer::Number(self.take(key, n, value)?),
            Call::Cancel(key, n, value) => Answer::Number(self.cancel(key, n, value)?),
            Call::Find(key) => Answer::Value(self.find(key)?),
            Call::Count => Answer::Number(self.count()),
            Call::At(i) => {
                let (m, w) = self.at(i)?;
                Answer::Entry(m, w)
            }
            Call::Enlarge => Answer::Number(self.enlarge()? as u64),
        })
    }
}
