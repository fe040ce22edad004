ghost use Rattle.std.specs.Prelude.{◌≡◌, ◌<◌, ◌++◌, [], ◌∷◌, map, length, take, drop, slice_index};
ghost use Rattle.table.specs.Places.{Placed};
ghost use Rattle.blocks.specs.PlainLayout.{entry_of};

use crate::plain::Plain;
use crate::slot::Slot;

/// How many words a block has.
pub(crate) const WIDTH: usize = 16;

/// How many entries a slot may hold.
pub(crate) const LIMIT: u64 = 15;

/// A word holds a value times this, plus a quotient.
pub(crate) const RADIX: u64 = 4_294_967_296;

impl Slot<'_, Plain> {
    /// The words of the entries that the slot holds.
    pub(crate) fn held(&self) -> &[u64]
        ensures value { result.now ≡ take (slice_index self.now.block.now 0) (drop 1 self.now.block.now) }
    {
        &self.block[1..1 + self.block[0] as usize]
    }
}

/// The first place of a quotient among the words of entries.
pub(crate) fn place(entries: &[u64], quotient: u64) -> Option<usize>
    ensures value { Placed (map entry_of entries.now) quotient result }
{
    entries.iter().position(|word| *word % RADIX == quotient)
}

/// Moves the words down by one over the first, and makes the last zero.
pub(crate) fn close(part: &mut [u64])
    requires { 0 < length part.old }
    ensures after { part.new ≡ drop 1 part.old ++ (0 ∷ []) }
{
    part.rotate_left(1);
    let last = part.len() - 1;
    part[last] = 0;
}
