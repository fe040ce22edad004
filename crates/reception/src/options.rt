//! What the command line asks for.
use intake::arguments::{Argument, Arguments};
use intake::options::Options;
use std::env;

/// Reads `[--layout packed|plain] [FILE]`; of several files the last one counts.
pub fn read_options(rt: &HostRuntime) -> anyhow::Result<Options> {
    let mut options = Options::none();
    let mut words = env::args(rt)?;
    let _ = words.next();
    for argument in Arguments::new(words) {
        match argument? {
            Argument::Layout(layout) => options.layout = layout,
            Argument::Other(word) => options.path = Some(word),
        }
    }
    Ok(options)
}
