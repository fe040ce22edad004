//! Long lists of calls to registers over every pair of tables and every permutation.
ghost use Rattle.std.specs.Prelude.{◌≡◌};

use crate::compare::Pair;
use crate::items::{Numbered, Spelled};
use crate::machine::{Machine, store};
use crate::mirror::Mirror;
use crate::report::Report;
use crate::rules::Mix;
use crate::script::{Tide, some_call};
use crate::settings::{CARDS, NIGHTS, SAME, Setting, chain, packed_table, plain_table};
use coding::Coding;
use expected::noise::Noise;
use expected::shown::Shown;
use model::answer::Answer;
use model::call::Call;
use model::refusal::Refusal;
use model::run_refusal::RunRefusal;
use permutation::{Affine, Identity, Permutation, SetUpRefusal, XorShift};
use register::{Parts, Register};
use std::io;
use table::refusal::TableRefusal;

/// How many calls a list has.
const CALLS: u64 = 3200;
/// At which of them the register is opened.
const OPENING: u64 = 25;
/// It rises and falls again in so many calls, and rises in the first of them.
const TIDE: u64 = 500;

const RISE: u64 = 200;

/// What a call came to, of what is counted.
#[derive(Clone, Copy, PartialEq, Eq, Debug)]
enum Outcome {
    /// The register moved into its other table.
    Moved,
    /// That table had no room.
    Tight,
    /// It did not fit.
    Unfit,
    /// A take found no room.
    Full,
}

impl Outcome {
    /// That of a call and its answer.
    fn of(call: Call<u64, u64>, answer: Answer<u64>) -> Option<Outcome> {
        match (call, answer) {
            (Call::Enlarge, Answer::Number(_)) => Some(Outcome::Moved),
            (Call::Enlarge, Answer::Refused(Refusal::Table(TableRefusal::Full))) => {
                Some(Outcome::Tight)
            }
            (Call::Enlarge, Answer::Refused(Refusal::Table(TableRefusal::DoesNotFit))) => {
                Some(Outcome::Unfit)
            }
            _ => is_full(call, answer).then_some(Outcome::Full),
        }
    }
}

/// What happened in a list of calls: the last outcome, and how often there was each.
#[derive(Clone, Copy, Default)]
struct Met {
    last: Option<Outcome>,
    moves: u64,
    twice: u64,
    full: u64,
    tight: u64,
    unfit: u64,
}

impl Met {
    /// Counts the moves, and what was refused for want of room or fit.
    fn note(&mut self, call: Call<u64, u64>, answer: Answer<u64>) {
        let outcome = Outcome::of(call, answer);
        match outcome {
            Some(Outcome::Moved) => {
                self.moves = self.moves.saturating_add(1);
                let again = self.last == outcome;
                self.twice = self.twice.saturating_add(u64::from(again));
            }
            Some(Outcome::Tight) => self.tight = self.tight.saturating_add(1),
            Some(Outcome::Unfit) => self.unfit = self.unfit.saturating_add(1),
            Some(Outcome::Full) => self.full = self.full.saturating_add(1),
            None => {}
        }
        self.last = outcome;
    }
}

/// Whether it is a take that found no room.
pub fn is_full(call: Call<u64, u64>, answer: Answer<u64>) -> bool {
    match (call, answer) {
        (Call::Take(_, _, _), Answer::RefusedAt(RunRefusal { why, .. })) => {
            why == Refusal::Table(TableRefusal::Full)
        }
        _ => false,
    }
}

/// The call at a place of the list. It is enlarged where much is held, and twice in a row where little is.
fn call_at(i: u64, b: u32, noise: &mut Noise, mirror: &Mirror) -> Call<u64, u64> {
    if i == OPENING {
        return Call::Open(b);
    }
    match i % TIDE {
        195 | 497 | 498 => Call::Enlarge,
        place if place < RISE => some_call(noise, mirror, Tide::Rising),
        _ => some_call(noise, mirror, Tide::Falling),
    }
}

impl<M: Machine + Drop> Pair<M> {
    /// A list of calls to a register that is closed, opened with 2^b slots.
    fn list(mut self, report: &mut Report<'_>, what: &str, b: u32) -> io::Result<()> {
        let mut noise = Noise::new(report.cases());
        let mut met = Met::default();
        for i in 0..CALLS {
            let call = call_at(i, b, &mut noise, &self.mirror);
            let answer = self.put(report, call)?;
            met.note(call, answer);
        }
        report.ended(what)?;
        let held = self.mirror.list.len();
        let b = self.mirror.bits();
        println!(report.rt;
            "  {held} held in 2^{b} slots after {} moves, {} of them right after another",
            met.moves, met.twice
        )?;
        println!(report.rt;
            "  no room for {} takes and {} moves, no fit for {}",
            met.full, met.tight, met.unfit
        )
    }
}

impl<
    T: Spelled + Copy,
    U: Spelled + Numbered + Copy,
    K: Coding<Item = T> + Copy,
    V: Coding<Item = U> + Copy,
> Setting<K, V> {
    /// The same codings under another formula.
    fn under(self, mix: Mix) -> Setting<K, V> {
        Setting { mix, ..self }
    }

    /// A list of calls to a register over two tables.
    fn pair<P: Permutation + Drop, A: Shown + Drop, B: Shown + Drop>(
        self,
        report: &mut Report<'_>,
        what: &str,
        permutation: Result<P, SetUpRefusal>,
        first: A,
        second: B,
        b: u32,
    ) -> io::Result<()> {
        let Ok(permutation) = permutation else {
            return report.unmade();
        };
        let parts = Parts {
            keys: self.key_sort,
            values: self.value_sort,
            permutation: self.mix,
            first: store(&first),
            second: store(&second),
        };
        let machine = Register::assemble(Parts {
            keys: self.keys,
            values: self.values,
            permutation,
            first,
            second,
        });
        Pair::new(report, machine, parts).list(report, what, b)
    }

    /// Two packed tables, two plain ones, and one of each in both orders; a permutation is made for each.
    fn all_pairs<P: Permutation + Drop, F: Fn() -> Result<P, SetUpRefusal>>(
        self,
        report: &mut Report<'_>,
        what: &str,
        made: F,
    ) -> io::Result<()>
        requires { F.IsAlwaysCallable made }
    {
        let rt = report.rt;
        println!(rt; "{what}")?;
        let one = packed_table(rt, 150)?;
        let other = packed_table(rt, 290)?;
        self.pair(report, "packed tables", made(), one, other, 4)?;
        let one = plain_table(rt, 520)?;
        let other = plain_table(rt, 1030)?;
        self.pair(report, "plain tables", made(), one, other, 0)?;
        let one = packed_table(rt, 150)?;
        let other = plain_table(rt, 2050)?;
        self.pair(report, "packed, then plain", made(), one, other, 4)?;
        let one = plain_table(rt, 520)?;
        let other = packed_table(rt, 290)?;
        self.pair(report, "plain, then packed", made(), one, other, 3)
    }
}

/// The lists of nights under a permutation of each kind.
fn run_nights(report: &mut Report<'_>) -> io::Result<()> {
    NIGHTS.all_pairs(report, "nights, identity", || Identity::new(20))?;
    let mix = Mix {
        multiplier: 660_677,
        increment: 54_321,
        ..SAME
    };
    NIGHTS.under(mix).all_pairs(
        report,
        "nights, affine",
        || Affine::new(20, 660_677, 54_321),
    )?;
    let mix = Mix {
        shift: Some(9),
        ..mix
    };
    NIGHTS
        .under(mix)
        .all_pairs(report, "nights, affine and then xor-shift", || chain(mix))?;
    let mix = Mix {
        shift: Some(3),
        ..SAME
    };
    NIGHTS
        .under(mix)
        .all_pairs(report, "nights, xor-shift", || XorShift::new(20, 3))
}

/// Runs all of it.
pub fn run(report: &mut Report<'_>) -> io::Result<()> {
    run_nights(report)?;
    let Mix {
        width,
        multiplier,
        increment,
        ..
    } = CARDS.mix;
    CARDS.all_pairs(
        report,
        "cards, affine",
        || Affine::new(width, multiplier, increment),
    )
}
