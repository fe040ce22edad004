ghost use Rattle.std.specs.Prelude.{◌≡◌, ℕ};
ghost use Rattle.model.specs.Entries.{Entries};
ghost use Rattle.dictionary.specs.Stored.{Holds, slot_by};
ghost use Rattle.dictionary.specs.Results.{looked_up, listed_at};

use crate::addressing::Addressing;
use crate::shaped::Shaped;
use permutation::Permutation;
use table::refusal::TableRefusal;
use table::table::Table;

impl<'a, P: Permutation> Addressing<'a, P> {
    /// The value number that a key number has.
    pub fn look_up<T: Table>(&self, table: &T, m: u64) -> Result<u64, TableRefusal>
        ensures value { (l : Entries) → Holds P.Permutation T.Table self.now table.now l → result ≡ looked_up self.now.shape.k l m }
    {
        let place = self.place(m);
        table.find(place.slot, place.quotient)
    }

    /// The entry at a place of the walk over the slots, slots upwards and each in order of arrival: key number and value number.
    pub fn entry_at<T: Table>(&self, table: &T, i: u64) -> Option<(u64, u64)>
        ensures value { (l : Entries) → Holds P.Permutation T.Table self.now table.now l → result ≡ listed_at (slot_by P.Permutation self.now) self.now.shape.b l i }
    {
        let from = Shaped {
            table,
            shape: self.shape,
        };
        let slots = 1u64 << self.shape.b;
        let mut left = i;
        for slot in 0..slots {
            let size = table.size(slot).ok()?;
            if left < size {
                let (y, w) = from.permuted_at(slot, left)?;
                return Some((self.permutation.back(y), w));
            }
            left -= size;
        }
        None
    }
}
