ghost use Rattle.std.specs.Prelude.{◌≡◌, ℕ, List, length};
ghost use Rattle.table.specs.Meaning.{unformed, formed, WellFormed};
ghost use Rattle.table.specs.Layout.{words_of};
ghost use Rattle.table.specs.Checking.{Holds};
ghost use Rattle.blocks.specs.Means.{means, items, size};

use crate::kind::Blocks;
use crate::state::BlockTable;
use std::marker::PhantomData;
use table::words::zero;

impl<L: Blocks> BlockTable<L> {
    /// An unformed table over words that are all made zero.
    pub fn set_up(words: Vec<u64>) -> BlockTable<L>
        ensures after { means result ≡ unformed }
        ensures len { size result ≡ length words.items }
    {
        let mut words = words;
        zero(&mut words);
        BlockTable {
            words,
            shape: None,
            kind: PhantomData,
        }
    }

    /// The table formed from the words where a check passes, and else an unformed one over words made zero.
    pub fn keep(words: Vec<u64>, k: u32, v: u32, b: u32) -> BlockTable<L>
        ensures after { (slots : List (List (ℕ × ℕ))) → WellFormed L.layout.S L.layout.C (L.layout.fits (length words.items)) k v b slots → words.items ≡ words_of L.layout (length words.items) (formed k v b slots) → means result ≡ formed k v b slots }
        ensures other { (Holds L.layout words.items k v b → ⊥) → means result ≡ unformed }
        ensures len { size result ≡ length words.items }
    {
        let Some(shape) = L::shape_for(words.len(), k, v, b) else {
            return BlockTable::set_up(words);
        };
        if BlockTable::<L>::scan(&words, shape).is_err() {
            return BlockTable::set_up(words);
        }
        BlockTable {
            words,
            shape: Some(shape),
            kind: PhantomData,
        }
    }

    /// The words, which are exactly those of the meaning.
    pub fn words(&self) -> &[u64]
        ensures value { result.now ≡ items self.now }
        ensures exact { result.now ≡ words_of L.layout (length result.now) (means self.now) }
    {
        &self.words
    }
}
