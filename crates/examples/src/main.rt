//! The worked examples: some proved of the definitions (`worked`), the others run and compared with what they should be.
#![tactic(auto)]

use std::io;

mod bitwise;
mod cases;
mod codings;
mod fields;
mod marks;
mod noise;
mod permutations;
mod worked;

fn main(rt: HostRuntime) -> io::Result<()> {
    worked::worked();
    codings::run(&rt)?;
    permutations::run(&rt)?;
    fields::run(&rt)?;
    marks::run(&rt)
}
