//! The check of a day's arrival list: `reception [--layout packed|plain] [FILE]`, and without a file from standard input.
//! Stays with which nothing is wrong are entered into a table, the packed one unless the other is asked for.
#![tactic(auto)]

use anyhow::Context;
use std::process::ExitCode;

mod options;
mod report;
mod show;

use arrivals::layout::Layout;
use arrivals::mix::night_mix;
use blocks::{PackedTable, PlainTable};
use intake::ending::end;
use intake::list::read_list;
use intake::options::Options;
use options::read_options;
use permutation::Permutation;
use report::NightTable;
use table::shape::Shape;
use table::table::Table;

/// How many words the table has.
const WORDS: usize = 16_384;
/// The bits of a key number, of a value number and of a slot number.
const KEY_BITS: u32 = 20;

const VALUE_BITS: u32 = 24;

const SLOT_BITS: u32 = 10;

/// Forms the table, and enters the list into it.
fn fill<P: Permutation + Drop, T: Table + Drop>(
    rt: &HostRuntime,
    permutation: P,
    mut table: T,
    shape: Shape,
    list: &str,
) -> anyhow::Result<()> {
    let formed = table.form(shape.k, shape.v, shape.b);
    formed.ok().context("the table has too few words")?;
    NightTable::new(permutation, table, shape).report_list(rt, list)?;
    Ok(())
}

fn run(rt: &HostRuntime) -> anyhow::Result<()> {
    let Options { layout, path } = read_options(rt)?;
    let list = read_list(rt, path)?;
    let permutation = night_mix()
        .ok()
        .context("the permutation of the nights cannot be set up")?;
    let shape = Shape::new(KEY_BITS, VALUE_BITS, SLOT_BITS).context(
        "there is no table of this shape",
    )?;
    let words = vec![in rt.alloc(); 0u64; WORDS]?;
    let bits = layout.entry_bits(shape);
    println!(rt; "{layout} table: an entry takes {bits} bits")?;
    match layout {
        Layout::Packed => fill(
            rt,
            permutation,
            PackedTable::set_up(words),
            shape,
            list.as_str(),
        ),
        Layout::Plain => fill(
            rt,
            permutation,
            PlainTable::set_up(words),
            shape,
            list.as_str(),
        ),
    }
}

fn main(rt: HostRuntime) -> ExitCode {
    end(&rt, "reception", run(&rt))
}
