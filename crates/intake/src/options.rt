//! What the command line asks for.
ghost use Rattle.std.specs.Prelude.{◌≡◌};

use arrivals::layout::Layout;

/// The layout of the tables, and the file to read; without one, standard input is read.
#[derive(Debug, Drop)]
pub struct Options {
    pub layout: Layout,
    pub path: Option<String>,
}

impl Options {
    /// What no argument asks for: packed tables, and standard input.
    pub fn none() -> Options
        ensures layout { result.layout ≡ Layout.Packed }
        ensures path { result.path ≡ None }
    {
        Options {
            layout: Layout::Packed,
            path: None,
        }
    }
}
