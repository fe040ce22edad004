ghost use Rattle.std.specs.Prelude.{◌≡◌, ◌^◌, ◌<◌, ◌≤◌, ◌==◌};
ghost use Rattle.model.specs.Step.{run_length, no_key};
ghost use Rattle.register.specs.Fixed.{fixed};
ghost use Rattle.register.specs.Reading.{Reads};

use crate::state::Register;
use coding::Coding;
use dictionary::Run;
use model::refusal::Refusal;
use model::run_refusal::RunRefusal;
use permutation::Permutation;
use table::table::Table;

/// The most keys that a run has.
const MOST: u64 = 64;

// Whether a run may have n keys.
pub(crate) fn is_run_length(n: u64) -> bool
    ensures { result ≡ run_length n }
{
    1 <= n && n <= MOST
}

impl<K: Coding, V: Coding, P: Permutation, A: Table, B: Table> Register<K, V, P, A, B> {
    // Whether the permutation has the width of the keys.
    pub(crate) fn widths_agree(&self) -> bool
        ensures { result ≡ (P.Permutation.width self.now.permutation == K.Coding.width self.now.keys) }
    {
        self.permutation.width() == self.keys.width()
    }

    // The numbers of a run of n keys under a value, or why it is refused on sight.
    pub(crate) fn read_run(&self, key: K::Item, n: u64, value: V::Item) -> Result<Run, RunRefusal>
        ensures { Reads (fixed K.Coding V.Coding P.Permutation A.Table B.Table self.now) key n value result }
    {
        if !is_run_length(n) {
            return Err(Refusal::RunLength.at(0));
        }
        let Some(m) = self.keys.number(key) else {
            return Err(Refusal::UnknownKey.at(0));
        };
        if let Some(place) = self.no_key(m, n) {
            return Err(Refusal::UnknownKey.at(place));
        }
        let Some(w) = self.values.number(value) else {
            return Err(Refusal::UnknownValue.at(0));
        };
        Ok(Run {
            first: m,
            length: n,
            value: w,
        })
    }

    // The first place of the n numbers from m on whose number is no key's.
    pub(crate) fn no_key(&self, m: u64, n: u64) -> Option<u64>
        requires { (m < 2 ^ 32) × (n ≤ 64) }
        ensures { result ≡ no_key (fixed K.Coding V.Coding P.Permutation A.Table B.Table self.now) m 0 n }
    {
        // A `for`: by `find` over the range a run that is refused takes more than half as long again.
        for i in 0..n {
            if let None = self.keys.item(m + i) {
                return Some(i);
            }
        }
        None
    }
}
