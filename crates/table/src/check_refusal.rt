/// Why words are not those of a formed table.
#[derive(Clone, Copy, PartialEq, Eq, Debug)]
pub enum CheckRefusal {
    /// The widths do not fit so many words.
    DoesNotFit,
    /// The first block that no content gives; or the number of blocks, where only a later word is not zero.
    WrongBlock(u64),
}
