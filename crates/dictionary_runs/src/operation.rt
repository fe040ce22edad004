//! What is put to a dictionary, and what it answers.
use dictionary::Run;
use expected::noise::Noise;
use expected::numbers::power;
use expected::refusals::number;
use model::refusal::Refusal;
use model::run_refusal::RunRefusal;
use table::refusal::TableRefusal;

/// How many bits key numbers and value numbers have.
pub const WIDTH: u32 = 8;

pub const VALUES: u32 = 5;

/// One operation.
#[derive(Clone, Copy, PartialEq, Eq, Debug)]
pub enum Operation {
    Take(Run),
    Cancel(Run),
    /// The value of a key number.
    LookUp(u64),
    /// The entry at a place of the walk.
    Entry(u64),
    /// A move into the other table.
    Enlarge,
}

/// The answer to one.
#[derive(Clone, Copy, PartialEq, Eq, Debug)]
pub enum Answer {
    Run(Result<(), RunRefusal>),
    Value(Result<u64, TableRefusal>),
    /// The key number and the value number there.
    Entry(Option<(u64, u64)>),
    Moved(Result<(), Refusal>),
}

/// A run of up to 20 keys, at times past the last key number, under one of few values, at times under none.
fn some_run(noise: &mut Noise) -> Run {
    let first = noise.below(power(WIDTH).saturating_add(8));
    let length = noise.below(21);
    let value = noise.below(4);
    if noise.below(40) == 0 {
        return Run {
            first,
            length,
            value: power(VALUES),
        };
    }
    if noise.below(60) == 0 {
        return Run {
            first: u64::MAX - 1,
            length: u64::MAX,
            value,
        };
    }
    Run {
        first,
        length,
        value,
    }
}

impl Operation {
    /// Any operation on the table in use.
    pub fn some(noise: &mut Noise) -> Operation {
        let run = some_run(noise);
        match noise.below(8) {
            0 | 1 | 2 => Operation::Take(run),
            3 | 4 => Operation::Cancel(run),
            5 => Operation::LookUp(run.first),
            _ => Operation::Entry(noise.below(120)),
        }
    }
}

impl Answer {
    /// Why the operation was refused.
    fn refusal(self) -> Option<Refusal> {
        match self {
            Answer::Run(done) => done.err().map(|e| e.why),
            Answer::Value(found) => found.err().map(Refusal::Table),
            Answer::Entry(_) => None,
            Answer::Moved(done) => done.err(),
        }
    }

    /// Whether it is the wanted one, and its refusal has its number.
    pub fn is(self, want: Answer) -> bool {
        self == want && self.refusal().is_none_or(|why| why.number() == number(why))
    }
}
