//! Runs of the dictionary over packed and plain tables: each answer, and the words of both tables after each operation, compared with a plain list and formulas.
#![tactic(auto)]

use std::io;

mod calls;
mod mirror;
mod mixed;
mod operation;
mod operations;

fn main(rt: HostRuntime) -> io::Result<()> {
    operations::run(&rt)
}
