//! Lists of calls replayed, on one register and on two.
use crate::compare::Pair;
use crate::items::Sort;
use crate::lists::is_full;
use crate::machine::{Machine, numbered, spelled};
use crate::mirror::{Formulas, Mirror};
use crate::report::{Report, is};
use crate::rules::{Mix, Store};
use crate::script::{Tide, some_call};
use crate::settings::{SAME, chain, packed_table, plain_table};
use coding::{Booking, BookingCoding, Night, NightCoding};
use expected::kind::Kind;
use expected::noise::Noise;
use model::answer::Answer;
use model::call::Call;
use permutation::Identity;
use register::{Parts, replay, replay_both};
use std::io;

/// What stands where no answer was written.
const UNTOUCHED: u64 = 4_242_424_242;

const MIX: Mix = Mix {
    width: 20,
    multiplier: 660_677,
    increment: 54_321,
    shift: Some(7),
};

/// Two packed tables under a mixing permutation.
const PACKED: Formulas = Parts {
    keys: Sort::Nights,
    values: Sort::Bookings,
    permutation: MIX,
    first: Store {
        kind: Kind::Packed,
        words: 150,
    },
    second: Store {
        kind: Kind::Packed,
        words: 290,
    },
};

/// Two plain tables under the identity.
const PLAIN: Formulas = Parts {
    keys: Sort::Nights,
    values: Sort::Bookings,
    permutation: SAME,
    first: Store {
        kind: Kind::Plain,
        words: 520,
    },
    second: Store {
        kind: Kind::Plain,
        words: 1030,
    },
};

/// A list of calls that begins with an open; little is held at first, and then more.
fn calls_from(rt: &HostRuntime, b: u32, number: usize) -> io::Result<Vec<Call<u64, u64>>> {
    let mut mirror = Mirror::new(rt.alloc(), PLAIN);
    let mut noise = Noise::new(number as u64);
    let mut calls = vec![in rt.alloc(); Call::Open(b); number]?;
    for (i, call) in calls.iter_mut().enumerate() {
        *call = match i {
            0 => Call::Open(b),
            _ if i % 90 == 89 => Call::Enlarge,
            _ if i > 300 => some_call(&mut noise, &mirror, Tide::Rising),
            _ => some_call(&mut noise, &mirror, Tide::Falling),
        };
        let _ = mirror.put(*call)?;
    }
    Ok(calls)
}

/// The same calls with their items.
fn items_of(rt: &HostRuntime, calls: &[Call<u64, u64>]) -> io::Result<Vec<Call<Night, Booking>>> {
    Ok(calls.iter().map(|call| spelled(*call)).collect(rt.alloc())?)
}

/// Room for answers, with nothing written.
fn room_for(rt: &HostRuntime, number: usize) -> io::Result<Vec<Answer<Booking>>> {
    Ok(vec![in rt.alloc(); Answer::Number(UNTOUCHED); number]?)
}

/// Counts which answers to the calls put are the list's, whether the others are as they were, and whether the tables have the list's words.
fn check<M: Machine + Drop>(
    report: &mut Report<'_>,
    machine: M,
    parts: Formulas,
    calls: &[Call<u64, u64>],
    answers: &[Answer<Booking>],
) -> io::Result<()> {
    let mut pair = Pair::new(report, machine, parts);
    for (i, answer) in answers.iter().enumerate() {
        let want = match calls.get(i) {
            Some(call) => pair.mirror.put(*call)?,
            None => Answer::Number(UNTOUCHED),
        };
        report.part.count(is(numbered(*answer), want));
    }
    let words = pair.same_words(report)?;
    report.part.count(words);
    Ok(())
}

/// A list of calls on one register, with room for so many answers.
fn replayed(report: &mut Report<'_>, number: usize, room: usize) -> io::Result<()> {
    let rt = report.rt;
    let Ok(permutation) = chain(MIX) else {
        return report.unmade();
    };
    let calls = calls_from(rt, 4, number)?;
    let items = items_of(rt, &calls)?;
    let mut answers = room_for(rt, room)?;
    let parts = Parts {
        keys: NightCoding,
        values: BookingCoding,
        permutation,
        first: packed_table(rt, 150)?,
        second: packed_table(rt, 290)?,
    };
    let (register, put) = replay(parts, &items, &mut answers);
    report.part.count(put == items.len().min(room));
    check(report, register, PACKED, reached(&calls, put), &answers)?;
    report.ended("replayed")?;
    println!(rt; "  {number} calls, {put} of them put")
}

/// The calls that were put.
fn reached(calls: &[Call<u64, u64>], put: usize) -> &[Call<u64, u64>] {
    calls.get(..put).unwrap_or(calls)
}

/// Whether two registers reply alike to it, whatever their tables.
fn is_compared(call: Call<u64, u64>) -> bool {
    matches!(
        call,
        Call::Take(_, _, _) | Call::Cancel(_, _, _) | Call::Find(_) | Call::Count
    )
}

/// Counts whether two registers reply alike until a take finds no room, if they do so to the open that comes first. Gives how many replies that were.
fn agreed(
    report: &mut Report<'_>,
    calls: &[Call<u64, u64>],
    answers: &[Answer<Booking>],
    others: &[Answer<Booking>],
) -> u64 {
    let before = report.part.cases;
    let replies = answers
        .iter()
        .zip(others)
        .map(|(one, other)| (numbered(*one), numbered(*other)));
    let compared = calls
        .iter()
        .zip(replies)
        .enumerate()
        .take_while(|(i, (call, (one, other)))| {
            let alike = *i > 0 || *one == *other;
            alike && !is_full(**call, *one) && !is_full(**call, *other)
        })
        .filter(|(_, (call, _))| is_compared(**call));
    for (_, (_, (one, other))) in compared {
        report.part.count(is(one, other));
    }
    report.part.cases.saturating_sub(before)
}

/// One list of calls on two registers, with room for so many answers of each.
fn replayed_on_both(
    report: &mut Report<'_>,
    b: u32,
    number: usize,
    rooms: (usize, usize),
) -> io::Result<()> {
    let rt = report.rt;
    let (Ok(mixed), Ok(straight)) = (chain(MIX), Identity::new(20)) else {
        return report.unmade();
    };
    let calls = calls_from(rt, b, number)?;
    let items = items_of(rt, &calls)?;
    let mut answers = room_for(rt, rooms.0)?;
    let mut others = room_for(rt, rooms.1)?;
    let one = Parts {
        keys: NightCoding,
        values: BookingCoding,
        permutation: mixed,
        first: packed_table(rt, 150)?,
        second: packed_table(rt, 290)?,
    };
    let other = Parts {
        keys: NightCoding,
        values: BookingCoding,
        permutation: straight,
        first: plain_table(rt, 520)?,
        second: plain_table(rt, 1030)?,
    };
    let (first, second, put) = replay_both(one, other, &items, &mut answers, &mut others);
    report
        .part
        .count(put == items.len().min(rooms.0).min(rooms.1));
    let calls = reached(&calls, put);
    check(report, first, PACKED, calls, &answers)?;
    check(report, second, PLAIN, calls, &others)?;
    let same = agreed(report, calls, &answers, &others);
    report.ended("replayed on both")?;
    println!(rt; "  {number} calls, {put} of them put, {same} compared")
}

/// Runs all of it.
pub fn run(report: &mut Report<'_>) -> io::Result<()> {
    replayed(report, 900, 900)?;
    replayed(report, 400, 250)?;
    replayed(report, 250, 400)?;
    replayed_on_both(report, 5, 1000, (1000, 1000))?;
    replayed_on_both(report, 4, 600, (500, 450))?;
    replayed_on_both(report, 3, 200, (180, 300))
}
