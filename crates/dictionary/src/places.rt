ghost use Rattle.std.specs.Prelude.{◌≡◌, ◌+◌, ◌^◌, ◌<◌, option_map};
ghost use Rattle.std.specs.List.{slice_get};
ghost use Rattle.model.specs.Entries.{Entries};
ghost use Rattle.model.specs.Model.{Mixing};
ghost use Rattle.dictionary.specs.Stored.{Stores, slot_of, quotient_of, in_slot};

use crate::addressing::Addressing;
use crate::shaped::Shaped;
use permutation::Permutation;
use table::place::Place;
use table::table::Table;

impl<'a, P: Permutation> Addressing<'a, P> {
    /// The place of a key number.
    pub fn place(&self, m: u64) -> Place
        ensures slot { result.slot ≡ slot_of (P.Permutation.forth self.now.permutation.now) self.now.shape.k self.now.shape.b m }
        ensures quotient { result.quotient ≡ quotient_of (P.Permutation.forth self.now.permutation.now) self.now.shape.k self.now.shape.b m }
    {
        self.shape.place(self.permutation.forth(m))
    }
}

impl<'a, T: Table> Shaped<'a, T> {
    // The entry at a place of a slot: the permuted number, joined of slot and quotient, and the value number.
    pub(crate) fn permuted_at(&self, slot: u64, i: u64) -> Option<(u64, u64)>
        ensures { (mix : Mixing) (l : Entries) → Stores T.Table mix self.now.table.now self.now.shape.k self.now.shape.v self.now.shape.b l → slot < 2 ^ self.now.shape.b
            → result ≡ option_map (λ e. (mix.forth e.0, e.1)) (slice_get (in_slot (slot_of mix.forth self.now.shape.k self.now.shape.b) slot l) i) }
    {
        let (quotient, w) = self.table.entry(slot, i).ok()?;
        Some((self.shape.join(Place { slot, quotient }), w))
    }
}
