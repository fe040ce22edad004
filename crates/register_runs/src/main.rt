//! Runs of the register: long lists of calls, refused ones too, lists replayed, and worked examples. Each answer, and the words of both tables
//! after each call, are compared with a plain list and formulas.
#![tactic(auto)]

use report::Report;
use std::io;

mod compare;
mod items;
mod lists;
mod machine;
mod mirror;
mod replays;
mod report;
mod rules;
mod script;
mod settings;
mod worked;

fn main(rt: HostRuntime) -> io::Result<()> {
    let mut report = Report::new(&rt);
    lists::run(&mut report)?;
    replays::run(&mut report)?;
    worked::run(&mut report)?;
    report.show("in all")
}
