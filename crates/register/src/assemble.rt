ghost use Rattle.std.specs.Prelude.{◌≡◌, []};
ghost use Rattle.model.specs.Model.{closed};
ghost use Rattle.register.specs.Stands.{Stands, MadeOf};
ghost use Rattle.register.specs.Promise.{Promise};

use crate::parts::Parts;
use crate::state::Register;
use coding::Coding;
use permutation::Permutation;
use table::table::Table;

impl<K: Coding, V: Coding, P: Permutation, A: Table, B: Table> Register<K, V, P, A, B> {
    /// A closed register of any five parts. Both tables are cleared, whatever they held.
    pub fn assemble(parts: Parts<K, V, P, A, B>) -> Register<K, V, P, A, B>
        ensures parts { MadeOf K.Coding V.Coding P.Permutation A.Table B.Table result parts }
        ensures stands { Stands K.Coding V.Coding P.Permutation A.Table B.Table result closed }
        ensures promise { Promise K.Coding V.Coding P.Permutation A.Table B.Table result [] [] }
    {
        let Parts {
            keys,
            values,
            permutation,
            mut first,
            mut second,
        } = parts;
        first.clear();
        second.clear();
        Register {
            keys,
            values,
            permutation,
            first,
            second,
            opened: None,
            count: 0,
        }
    }

    /// The first table, to be looked at.
    pub fn first(&self) -> &A
        ensures value { result.now ≡ self.now.first }
    {
        &self.first
    }

    /// The second table, to be looked at.
    pub fn second(&self) -> &B
        ensures value { result.now ≡ self.now.second }
    {
        &self.second
    }
}
