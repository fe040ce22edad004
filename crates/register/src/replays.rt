ghost use Rattle.std.specs.Prelude.{◌≡◌, min, length, take, drop};
ghost use Rattle.model.specs.Laws.{SameCodings};
ghost use Rattle.register.specs.Fixed.{fixed_of};
ghost use Rattle.register.specs.Stands.{MadeOf};
ghost use Rattle.register.specs.Promise.{Promise, Agree, replies};

use crate::parts::Parts;
use crate::state::Register;
use coding::Coding;
use model::answer::Answer;
use model::call::Call;
use permutation::Permutation;
use table::table::Table;

/// Assembles a register of any parts and puts the calls to it, one after the other, as many as there is room for answers.
/// Gives back the register, and how many calls were put; the answers that were not reached stay as they were.
pub fn replay<K: Coding, V: Coding, P: Permutation, A: Table, B: Table>(
    parts: Parts<K, V, P, A, B>,
    calls: &[Call<K::Item, V::Item>],
    answers: &mut [Answer<V::Item>],
) -> (Register<K, V, P, A, B>, usize)
    ensures number { result.1 ≡ min (length calls.now) (length answers.old) }
    ensures parts { MadeOf K.Coding V.Coding P.Permutation A.Table B.Table result.0 parts }
    ensures promise { Promise K.Coding V.Coding P.Permutation A.Table B.Table result.0 (take result.1 calls.now) (take result.1 answers.new) }
    ensures rest { drop result.1 answers.new ≡ drop result.1 answers.old }
{
    let mut register = Register::assemble(parts);
    let number = calls.len().min(answers.len());
    // `answers` by index: after a loop over `answers.iter_mut().zip(calls)` (tried) a proof knows the slice's length, and none of its elements.
    for (i, call) in calls[..number].iter().enumerate() {
        answers[i] = register.put(*call);
    }
    (register, number)
}

/// Replays one list of calls on two registers of any two kinds, as many as there is room for in both.
pub fn replay_both<
    T: Copy,
    U: Copy,
    K: Coding<Item = T>,
    V: Coding<Item = U>,
    P: Permutation,
    A: Table,
    B: Table,
    L: Coding<Item = T>,
    W: Coding<Item = U>,
    Q: Permutation,
    C: Table,
    D: Table,
>(
    one: Parts<K, V, P, A, B>,
    other: Parts<L, W, Q, C, D>,
    calls: &[Call<T, U>],
    answers: &mut [Answer<U>],
    others: &mut [Answer<U>],
) -> (Register<K, V, P, A, B>, Register<L, W, Q, C, D>, usize)
    ensures number { result.2 ≡ min (min (length calls.now) (length answers.old)) (length others.old) }
    ensures parts { (MadeOf K.Coding V.Coding P.Permutation A.Table B.Table result.0 one) × (MadeOf L.Coding W.Coding Q.Permutation C.Table D.Table result.1 other) }
    ensures promise { (Promise K.Coding V.Coding P.Permutation A.Table B.Table result.0 (take result.2 calls.now) (take result.2 answers.new)) × (Promise L.Coding W.Coding Q.Permutation C.Table D.Table result.1 (take result.2 calls.now) (take result.2 others.new)) }
    ensures alike { SameCodings (fixed_of K.Coding V.Coding P.Permutation A.Table B.Table one)
        (fixed_of L.Coding W.Coding Q.Permutation C.Table D.Table other)
        → Agree (take result.2 calls.now) (replies K.Coding V.Coding P.Permutation A.Table B.Table result.0 (take result.2 answers.new))
        (replies L.Coding W.Coding Q.Permutation C.Table D.Table result.1 (take result.2 others.new)) }
    ensures rest { (drop result.2 answers.new ≡ drop result.2 answers.old) × (drop result.2 others.new ≡ drop result.2 others.old) }
{
    let number = calls.len().min(answers.len()).min(others.len());
    let (register, _) = replay(one, &calls[..number], answers);
    let (another, _) = replay(other, &calls[..number], others);
    (register, another, number)
}
