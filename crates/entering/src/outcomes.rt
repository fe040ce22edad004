//! What the answers of a register say of the stays that were put to it.
ghost use Rattle.std.specs.Prelude.{◌≡◌};
ghost use Rattle.entering.specs.Calls.{opening, outcome, outcome_at};

use coding::Booking;
use model::answer::Answer;
use model::refusal::Refusal;
use model::run_refusal::RunRefusal;

/// What the answer to the open says: the b that the register has, or why it is not open.
pub fn opening(answers: &[Answer<Booking>]) -> Result<u64, Refusal>
    ensures value { result ≡ opening answers.now }
{
    match answers {
        [Answer::Number(b), ..] => Ok(*b),
        [Answer::Refused(why), ..] => Err(*why),
        _ => Err(Refusal::Unreached),
    }
}

/// What an answer to a take says: how many nights are taken, or why none is and at which of them.
fn outcome(answer: Answer<Booking>) -> Result<u64, RunRefusal>
    ensures value { result ≡ outcome answer }
{
    match answer {
        Answer::Number(n) => Ok(n),
        Answer::RefusedAt(refusal) => Err(refusal),
        Answer::Refused(why) => Err(why.at(0)),
        Answer::Value(_) | Answer::Entry(_, _) => Err(Refusal::Unreached.at(0)),
    }
}

/// What came of the stay at a place of the list, the first being 0. The answer to the open comes before those to the takes.
pub fn outcome_at(answers: &[Answer<Booking>], place: u64) -> Result<u64, RunRefusal>
    ensures value { result ≡ outcome_at answers.now place }
{
    let [_, takes @ ..] = answers else {
        return Err(Refusal::Unreached.at(0));
    };
    let answer = takes.get(place as usize).ok_or(Refusal::Unreached.at(0))?;
    outcome(*answer)
}
