//! The entry of a day's arrival list into a night register: `desk [--layout packed|plain] [FILE]`, and without a file from standard input.
//! It prints what came of each line. Both tables of the register are packed unless the other layout is asked for.
#![tactic(auto)]

use anyhow::{Context, anyhow};
use std::process::ExitCode;

mod options;
mod report;
mod show;

use arrivals::layout::Layout;
use arrivals::lines::read_stay;
use arrivals::mix::night_mix;
use arrivals::stay::Stay;
use blocks::{PackedTable, PlainTable};
use coding::{BookingCoding, NightCoding};
use entering::calls::calls_of;
use entering::outcomes::opening;
use intake::ending::end;
use intake::list::read_list;
use intake::options::Options;
use model::answer::Answer;
use options::read_options;
use register::{Parts, replay};
use report::report_list;
use show::Said;
use std::alloc::{AllocError, Global};
use table::table::Table;

/// How many words each of the two tables has.
const WORDS: usize = 16_384;
/// The bits of a slot number.
const SLOT_BITS: u32 = 10;

/// The stays of the lines that can be read.
fn read_stays(heap: Global, list: &str) -> Result<Vec<Stay>, AllocError> {
    list.lines()
        .filter_map(|line| read_stay(line.as_bytes()).ok().flatten())
        .collect(heap)
}

/// Puts the stays of a list to a register over two tables, and prints what came of it.
fn enter<T: Table + Drop>(
    rt: &HostRuntime,
    layout: Layout,
    first: T,
    second: T,
    list: &str,
) -> anyhow::Result<()> {
    let permutation = night_mix()
        .ok()
        .context("the permutation of the nights cannot be set up")?;
    let stays = read_stays(rt.alloc(), list)?;
    let calls = calls_of(rt.alloc(), SLOT_BITS, &stays)?;
    let mut answers = vec![in rt.alloc(); Answer::Number(0); calls.len()]?;
    let parts = Parts {
        keys: NightCoding,
        values: BookingCoding,
        permutation,
        first,
        second,
    };
    let (register, _) = replay(parts, &calls, &mut answers);
    let b = opening(&answers).map_err(|why| anyhow!("{}", Said(why)))?;
    println!(rt; "night register open: {layout} tables, 2^{b} slots")?;
    report_list(rt, list, &answers, register.count())?;
    Ok(())
}

fn run(rt: &HostRuntime) -> anyhow::Result<()> {
    let Options { layout, path } = read_options(rt)?;
    let first = vec![in rt.alloc(); 0u64; WORDS]?;
    let second = vec![in rt.alloc(); 0u64; WORDS]?;
    let list = read_list(rt, path)?;
    match layout {
        Layout::Packed => {
            let first = PackedTable::set_up(first);
            let second = PackedTable::set_up(second);
            enter(rt, layout, first, second, list.as_str())
        }
        Layout::Plain => {
            let first = PlainTable::set_up(first);
            let second = PlainTable::set_up(second);
            enter(rt, layout, first, second, list.as_str())
        }
    }
}

fn main(rt: HostRuntime) -> ExitCode {
    end(&rt, "desk", run(&rt))
}
