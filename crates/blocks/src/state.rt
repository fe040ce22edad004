ghost use Rattle.std.specs.Prelude.{◌≡◌, length};
ghost use Rattle.table.specs.Layout.{words_of, meaning, Well};

use crate::kind::Blocks;
use std::marker::PhantomData;
use table::shape::Shape;

pub mod calls;
pub mod check;
pub mod set_up;
mod spot;

/// A table over words: group g has run number g of them, as its kind lays it out. The words are those of what the table means.
#[derive(Drop)]
pub struct BlockTable<L: Blocks> {
    words: Vec<u64>,
    shape: Option<Shape>,
    kind: PhantomData<L>,
    ghost well: { ∥ Well L.layout (length words.items) (meaning L.layout words.items shape) ∥₁ },
    ghost exact: { words.items ≡ words_of L.layout (length words.items) (meaning L.layout words.items shape) },
}
