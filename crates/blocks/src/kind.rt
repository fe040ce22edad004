ghost use Rattle.std.specs.Prelude.{◌≡◌, ℕ, ◌-◌, ◌^◌, ◌<◌, ◌≤◌, true, [], List, length, Ok, Decides, slice_index_or};
ghost use Rattle.table.specs.Meaning.{Fit, total, value_in, weigh_held};
ghost use Rattle.table.specs.Places.{Placed};
ghost use Rattle.table.specs.Widths.{shape_where, widths};
ghost use Rattle.table.specs.Layout.{Layout, group_added};
ghost use Rattle.table.specs.Lawful.{Lawful};
ghost use Rattle.table.specs.Checking.{Given};
ghost use Rattle.blocks.specs.Places.{without_place};

use crate::slot::Slot;
use table::shape::Shape;

/// A kind of table that keeps a group of slots in a block of words: which blocks there are, and what is done in one of them.
pub(crate) trait Blocks {
    /// How the groups stand in words.
    ghost layout: { Layout };

    /// Which blocks can be read; some content may give it or not.
    ghost readable: { (k v b : ℕ) → List ℕ → Type 0 };

    /// How many slots make a group.
    fn slots() -> u64
        ensures value { result ≡ layout.S };

    /// How many entries a group may hold.
    fn limit() -> u64
        ensures value { result ≡ layout.C };

    /// The shape of these widths, where they fit so many words.
    fn shape_for(words: usize, k: u32, v: u32, b: u32) -> Option<Shape>
        ensures value { widths result ≡ shape_where (layout.fits words k v b) k v b };

    /// How many blocks a table of this shape has.
    fn count(shape: Shape) -> usize
        ensures value { result ≡ layout.count shape.b };

    /// How many words a block has.
    fn width(shape: Shape) -> usize
        ensures value { result ≡ layout.width shape.k shape.v shape.b };

    /// Whether some content gives this block.
    fn is_given(block: &[u64], shape: Shape) -> bool
        requires { length block.now ≡ layout.width shape.k shape.v shape.b }
        ensures value { Decides result (Given layout shape.k shape.v shape.b block.now) };

    /// How many entries the slot's group holds.
    fn load(at: &Slot<'_, Self>) -> u64
        ensures value { result ≡ total (layout.read at.now.shape.k at.now.shape.v at.now.shape.b at.now.block.now) };

    /// How many entries the slot holds.
    fn size(at: &Slot<'_, Self>) -> u64
        ensures value { result ≡ length (slice_index_or (layout.read at.now.shape.k at.now.shape.v at.now.shape.b at.now.block.now) at.now.slot []) };

    /// The first place of a quotient in the slot.
    fn place(at: &Slot<'_, Self>, quotient: u64) -> Option<u64>
        ensures value { Placed (slice_index_or (layout.read at.now.shape.k at.now.shape.v at.now.shape.b at.now.block.now) at.now.slot []) quotient result };

    /// The entry at a place of the slot: quotient and value.
    fn entry(at: &Slot<'_, Self>, i: u64) -> (u64, u64)
        requires { i < length (slice_index_or (layout.read at.now.shape.k at.now.shape.v at.now.shape.b at.now.block.now) at.now.slot []) }
        ensures value { result ≡ slice_index_or (slice_index_or (layout.read at.now.shape.k at.now.shape.v at.now.shape.b at.now.block.now) at.now.slot []) i (0, 0) };

    /// Puts one more entry at the end of a slot, where nothing stands against it.
    fn put(block: &mut [u64], shape: Shape, slot: u64, quotient: u64, value: u64)
        requires given { Given layout shape.k shape.v shape.b block.old }
        requires slot { slot < layout.S }
        requires fits { (quotient < 2 ^ (shape.k - shape.b)) × (value < 2 ^ shape.v) }
        requires free { weigh_held layout.C (total (layout.read shape.k shape.v shape.b block.old)) (value_in (slice_index_or (layout.read shape.k shape.v shape.b block.old) slot []) quotient) ≡ Ok tt }
        ensures after { block.new ≡ layout.block shape.k shape.v shape.b (group_added layout.C (layout.read shape.k shape.v shape.b block.old) slot quotient value).0 };

    /// Takes the entry at a place out of a slot, and gives its value.
    fn take_out(block: &mut [u64], shape: Shape, slot: u64, i: u64) -> u64
        requires given { Given layout shape.k shape.v shape.b block.old }
        requires slot { slot < layout.S }
        requires place { i < length (slice_index_or (layout.read shape.k shape.v shape.b block.old) slot []) }
        ensures after { block.new ≡ layout.block shape.k shape.v shape.b (without_place (layout.read shape.k shape.v shape.b block.old) slot i) }
        ensures value { result ≡ (slice_index_or (slice_index_or (layout.read shape.k shape.v shape.b block.old) slot []) i (0, 0)).1 };

    ghost lawful: { Lawful layout };

    ghost grouped: { (j : ℕ) × (layout.S ≡ 2 ^ j) };

    ghost limited: { 1 ≤ layout.C };

    ghost fitting: { (n k v b : ℕ) → layout.fits n k v b ≡ true → Fit layout.S k v b };

    ghost given_readable: { (k v b : ℕ) (block : List ℕ) → k ≤ 32 → Given layout k v b block → readable k v b block };
}
