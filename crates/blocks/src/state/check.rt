ghost use Rattle.std.specs.Prelude.{◌≡◌, true, length, Ok};
ghost use Rattle.table.specs.Checking.{Checked, Holds};

use crate::kind::Blocks;
use crate::state::BlockTable;
use table::check_refusal::CheckRefusal;
use table::shape::Shape;
use table::words::all_zero;

impl<L: Blocks> BlockTable<L> {
    /// Whether these widths fit so many words.
    pub fn fits_in(words: usize, k: u32, v: u32, b: u32) -> bool
        ensures value { result ≡ L.layout.fits words k v b }
    {
        L::shape_for(words, k, v, b).is_some()
    }

    /// Whether words are those of a content of this shape, and else the first block that is none's.
    pub(crate) fn scan(words: &[u64], shape: Shape) -> Result<(), CheckRefusal>
        requires { L.layout.fits (length words.now) shape.k shape.v shape.b ≡ true }
        ensures value { Checked L.layout words.now shape.k shape.v shape.b result }
        ensures passes { Holds L.layout words.now shape.k shape.v shape.b → result ≡ Ok tt }
    {
        let blocks = L::count(shape);
        let width = L::width(shape);
        // A `for`: what is proved then refuses another order of the blocks, and with `find` only the type of the iterator does.
        for g in 0..blocks {
            if !L::is_given(&words[g * width..g * width + width], shape) {
                return Err(CheckRefusal::WrongBlock(g as u64));
            }
        }
        if !all_zero(&words[blocks * width..]) {
            return Err(CheckRefusal::WrongBlock(blocks as u64));
        }
        Ok(())
    }

    /// Whether words are those of a content of these widths, and else the first block that is none's.
    pub fn check(words: &[u64], k: u32, v: u32, b: u32) -> Result<(), CheckRefusal>
        ensures value { Checked L.layout words.now k v b result }
        ensures passes { Holds L.layout words.now k v b → result ≡ Ok tt }
    {
        let shape = L::shape_for(words.len(), k, v, b).ok_or(CheckRefusal::DoesNotFit)?;
        BlockTable::<L>::scan(words, shape)
    }
}
