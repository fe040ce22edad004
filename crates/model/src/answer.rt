ghost use Rattle.std.specs.Prelude.{◌≡◌};
ghost use Rattle.model.specs.declared.answer.Answer.TheVariants.{Refused, RefusedAt};

use crate::refusal::Refusal;
use crate::run_refusal::RunRefusal;

/// What a register answers to a call; `V` is the item of its values.
#[derive(Clone, Copy, PartialEq, Eq, Debug)]
pub enum Answer<V> {
    /// The b of an open or an enlarge, the n of a take or a cancel, or the count.
    Number(u64),
    /// The value that was found.
    Value(V),
    /// The key number and the value number of the entry at a place.
    Entry(u64, u64),
    /// Why an open, a find, an at or an enlarge is refused.
    Refused(Refusal),
    /// Why a take or a cancel is refused, and at which of its keys.
    RefusedAt(RunRefusal),
}

/// A refusal is an answer.
impl<V> From<Refusal> for Answer<V> {
    ghost from_gives = { λ e r. r ≡ Refused e };

    fn from(e: Refusal) -> Answer<V> {
        Answer::Refused(e)
    }
}

/// And so is that of a run.
impl<V> From<RunRefusal> for Answer<V> {
    ghost from_gives = { λ e r. r ≡ RefusedAt e };

    fn from(e: RunRefusal) -> Answer<V> {
        Answer::RefusedAt(e)
    }
}
