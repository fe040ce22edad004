//! What the command line asks for.
use anyhow::bail;
use intake::arguments::{Argument, Arguments};
use intake::options::Options;
use std::env;

/// Reads `[--layout packed|plain] [FILE]`.
pub fn read_options(rt: &HostRuntime) -> anyhow::Result<Options> {
    let mut options = Options::none();
    let mut words = env::args(rt)?;
    let _ = words.next();
    for argument in Arguments::new(words) {
        match argument? {
            Argument::Layout(layout) => options.layout = layout,
            Argument::Other(word) => {
                if word.as_str().starts_with("--") {
                    bail!("the only option is --layout, followed by packed or plain");
                }
                if options.path.is_some() {
                    bail!("only one file is read");
                }
                options.path = Some(word);
            }
        }
    }
    Ok(options)
}
