//! A register as the runs see it: calls and answers by numbers, and the words of its tables.
use crate::items::{Numbered, Spelled};
use crate::rules::Store;
use coding::Coding;
use expected::shown::Shown;
use model::answer::Answer;
use model::call::Call;
use permutation::Permutation;
use register::{Register, Side};

/// What the formulas are told of a table.
pub fn store<T: Shown>(table: &T) -> Store {
    Store {
        kind: T::kind(),
        words: table.shown().len() as u64,
    }
}

/// The call with the items of its numbers.
pub fn spelled<T: Spelled, U: Spelled>(call: Call<u64, u64>) -> Call<T, U> {
    match call {
        Call::Open(b) => Call::Open(b),
        Call::Take(m, n, w) => Call::Take(T::spelled(m), n, U::spelled(w)),
        Call::Cancel(m, n, w) => Call::Cancel(T::spelled(m), n, U::spelled(w)),
        Call::Find(m) => Call::Find(T::spelled(m)),
        Call::Count => Call::Count,
        Call::At(i) => Call::At(i),
        Call::Enlarge => Call::Enlarge,
    }
}

/// The answer with the number of its item.
pub fn numbered<U: Spelled + Numbered + Copy>(answer: Answer<U>) -> Answer<u64> {
    match answer {
        Answer::Number(n) => Answer::Number(n),
        Answer::Value(x) => Answer::Value(x.number()),
        Answer::Entry(m, w) => Answer::Entry(m, w),
        Answer::Refused(e) => Answer::Refused(e),
        Answer::RefusedAt(e) => Answer::RefusedAt(e),
    }
}

/// What the runs ask of a register.
pub trait Machine {
    /// Puts a call by numbers, and gives the answer by numbers.
    fn ask(&mut self, call: Call<u64, u64>) -> Answer<u64>;

    /// The words of a table.
    fn words(&self, side: Side) -> &[u64];
}

impl<
    T: Spelled + Copy,
    U: Spelled + Numbered + Copy,
    K: Coding<Item = T>,
    V: Coding<Item = U>,
    P: Permutation,
    A: Shown,
    B: Shown,
> Machine for Register<K, V, P, A, B> {
    fn ask(&mut self, call: Call<u64, u64>) -> Answer<u64> {
        numbered(self.put(spelled(call)))
    }

    fn words(&self, side: Side) -> &[u64] {
        match side {
            Side::First => self.first().shown(),
            Side::Second => self.second().shown(),
        }
    }
}
