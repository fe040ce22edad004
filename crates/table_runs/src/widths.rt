//! Widths of tables.
use expected::layout::Layout;
use expected::shown::Shown;

/// Widths of key numbers, of value numbers, and of slot numbers.
#[derive(Clone, Copy, PartialEq, Eq, Debug)]
pub struct Widths {
    pub k: u32,
    pub v: u32,
    pub b: u32,
}

impl Widths {
    /// How a table of these widths stands in its words.
    pub fn layout<T: Shown>(self) -> Layout {
        Layout {
            kind: T::kind(),
            quotient: self.k.saturating_sub(self.b),
            value: self.v,
        }
    }
}
