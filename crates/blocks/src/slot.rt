ghost use Rattle.std.specs.Prelude.{◌<◌};

use crate::kind::Blocks;
use std::marker::PhantomData;
use table::shape::Shape;

mod read;

/// A slot in the block of its group, to be read.
#[derive(Drop)]
pub(crate) struct Slot<'a, L: Blocks> {
    pub block: &'a [u64],
    pub shape: Shape,
    pub slot: u64,
    pub kind: PhantomData<L>,
    ghost readable: { ∥ L.readable shape.k shape.v shape.b block.now ∥₁ },
    ghost inside: { slot < L.layout.S },
}
