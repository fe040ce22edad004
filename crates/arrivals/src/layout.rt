//! Which table the nights are entered into, and what an entry takes there.
ghost use Rattle.arrivals.specs.Layouts.{entry_bits};
ghost use Rattle.std.specs.Prelude.{◌≡◌};

use std::error::Error;
use std::fmt;
use std::str::FromStr;
use table::shape::Shape;

/// The two layouts of a table.
#[derive(Clone, Copy, PartialEq, Eq, Debug)]
pub enum Layout {
    Packed,
    Plain,
}

/// No layout, or none that there is, follows the option.
#[derive(Clone, Copy, PartialEq, Eq, Debug)]
pub struct NoLayout;

/// The bits of a word, which is what an entry of the plain table takes.
const WORD: u32 = 64;

impl Layout {
    /// The bits of an entry: in a packed table its quotient, its value and its mark, and in a plain one a word.
    pub fn entry_bits(self, shape: Shape) -> u32
        ensures value { result ≡ entry_bits self shape }
    {
        match self {
            Layout::Packed => shape.k - shape.b + shape.v + 1,
            Layout::Plain => WORD,
        }
    }
}

/// Reads the name of a layout.
impl FromStr for Layout {
    type Err = NoLayout;

    ghost use Rattle.arrivals.specs.Layouts.{IsNamed};

    ghost from_str_gives = { IsNamed };

    fn from_str(word: &str) -> Result<Layout, NoLayout> {
        match word {
            "packed" => Ok(Layout::Packed),
            "plain" => Ok(Layout::Plain),
            _ => Err(NoLayout),
        }
    }
}

impl fmt::Display for Layout {
    ghost use Rattle.arrivals.specs.Layouts.{layout_name};
    ghost use Rattle.std.specs.Prelude.{Some};

    ghost output = { λ layout. Some (layout_name layout) };

    fn fmt<W: fmt::Write>(&self, f: &mut fmt::Formatter<W>) -> fmt::Result {
        match self {
            Layout::Packed => write!(f, "packed"),
            Layout::Plain => write!(f, "plain"),
        }
    }
}

impl fmt::Display for NoLayout {
    ghost use Rattle.arrivals.specs.Layouts.{no_layout};
    ghost use Rattle.std.specs.Prelude.{Some};

    ghost output = { λ fault. Some no_layout };

    fn fmt<W: fmt::Write>(&self, f: &mut fmt::Formatter<W>) -> fmt::Result {
        write!(f, "--layout is followed by packed or plain")
    }
}

impl Error for NoLayout {}
