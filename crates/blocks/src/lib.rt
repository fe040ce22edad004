//! Tables that keep a group of slots in a block of words: one generic `BlockTable`, over the words that it is given at set-up, of two kinds.
//! `PlainTable` keeps a slot in a block of 16 words, a word to an entry: groups of one slot, at most 15 entries each.
//! `PackedTable` keeps 16 slots in a block of unary marks, packed quotients and packed values: at most 48 entries to a group.
#![tactic(auto)]

pub mod as_table;
mod kind;
pub mod packed;
pub mod plain;
mod slot;
pub mod state;

pub use packed::Packed;
pub use plain::Plain;
pub use state::BlockTable;

/// A table of slots in blocks of 16 words.
pub type PlainTable = BlockTable<Plain>;

/// A table of groups of 16 slots, packed.
pub type PackedTable = BlockTable<Packed>;
