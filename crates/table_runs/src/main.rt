//! Runs of the tables: after each call the words are compared with words worked out here in another way.
#![tactic(auto)]

use std::io;

mod content;
mod damage;
mod packed_table;
mod pair;
mod plain_table;
mod refused;
mod tried;
mod widths;

fn main(rt: HostRuntime) -> io::Result<()> {
    plain_table::run(&rt)?;
    packed_table::run(&rt)
}
