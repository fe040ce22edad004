ghost use Rattle.std.specs.Prelude.{◌≡◌, ◌+◌, ◌^◌, ◌<◌, ◌≤◌, true, false, length, take, Some, Ok, Err, is_some, nat_eq, option_map, unwrap_or};
ghost use Rattle.table.specs.Meaning.{unformed};
ghost use Rattle.table.specs.Slots.{within};
ghost use Rattle.model.specs.declared.refusal.Refusal.{Refusal as Refused};
ghost use Rattle.model.specs.Entries.{Entries, count_if, groups_hold, walk};
ghost use Rattle.model.specs.Model.{Mixing};
ghost use Rattle.model.specs.Laws.{LawfulMixing};
ghost use Rattle.std.specs.List.{slice_get};
ghost use Rattle.dictionary.specs.Stored.{Stores, slot_of, in_slot, range_load};
ghost use Rattle.dictionary.specs.Results.{moved};

use crate::shaped::Shaped;
use model::refusal::Refusal;
use table::refusal::TableRefusal;
use table::shape::Shape;
use table::table::Table;

/// Moves every entry of one table into another, of any kind, with one more bit of slots; the first is then cleared.
pub fn redistribute<A: Table, B: Table>(
    first: &mut A,
    second: &mut B,
    shape: Shape,
) -> Result<(), Refusal>
    ensures value { (mix : Mixing) (l : Entries) → LawfulMixing mix → Stores A.Table mix first.old shape.k shape.v shape.b l → B.Table.sound second.old
        → result ≡ moved (B.Table.fits second.old shape.k shape.v (shape.b + 1)) (groups_hold (slot_of mix.forth shape.k (shape.b + 1)) B.Table.group B.Table.limit l) }
    ensures after { (mix : Mixing) (l : Entries) → LawfulMixing mix → Stores A.Table mix first.old shape.k shape.v shape.b l → B.Table.sound second.old
        → result ≡ Ok tt → Stores B.Table mix second.new shape.k shape.v (shape.b + 1) l }
    ensures cleared { result ≡ Ok tt → A.Table.sound first.new × (A.Table.means first.new ≡ unformed) }
    ensures kept { (mix : Mixing) (l : Entries) → LawfulMixing mix → Stores A.Table mix first.old shape.k shape.v shape.b l → B.Table.sound second.old
        → (e : Refused) → result ≡ Err e → (first.new ≡ first.old) × (second.new ≡ second.old) }
    ensures len { (length (A.Table.words first.new) ≡ length (A.Table.words first.old)) × (length (B.Table.words second.new) ≡ length (B.Table.words second.old)) }
    ensures fits { (A.Table.fits first.new ≡ A.Table.fits first.old) × (B.Table.fits second.new ≡ B.Table.fits second.old) }
{
    if !second.fits(shape.k, shape.v, shape.b + 1) {
        return Err(Refusal::Table(TableRefusal::DoesNotFit));
    }
    let from = Shaped {
        table: &*first,
        shape,
    };
    if !from.all_hold(second) {
        return Err(Refusal::Table(TableRefusal::Full));
    }
    from.fill(second)?;
    first.clear();
    Ok(())
}

impl<'a, A: Table> Shaped<'a, A> {
    // Whether the entry at a place of a slot goes into this slot of the larger table; there is none past the slot's end.
    fn goes_to(&self, from: u64, i: u64, slot: u64) -> bool
        ensures { (mix : Mixing) (l : Entries) → Stores A.Table mix self.now.table.now self.now.shape.k self.now.shape.v self.now.shape.b l → from < 2 ^ self.now.shape.b
            → result ≡ unwrap_or (option_map (λ e. nat_eq (slot_of mix.forth self.now.shape.k (self.now.shape.b + 1) e.0) slot) (slice_get (in_slot (slot_of mix.forth self.now.shape.k self.now.shape.b) from l) i)) false }
    {
        let shape = self.shape;
        self.permuted_at(from, i)
            .is_some_and(|(y, _)| shape.place_in_twice(y).slot == slot)
    }

    // How many entries go into a slot of the larger table.
    fn moved_size(&self, slot: u64) -> Option<u64>
        ensures { (mix : Mixing) (l : Entries) → Stores A.Table mix self.now.table.now self.now.shape.k self.now.shape.v self.now.shape.b l → slot < 2 ^ (self.now.shape.b + 1)
            → result ≡ Some (count_if (λ e. nat_eq (slot_of mix.forth self.now.shape.k (self.now.shape.b + 1) e.0) slot) l) }
    {
        let from = slot / 2;
        let size = self.table.size(from).ok()?;
        let count = (0..size).filter(|i| self.goes_to(from, *i, slot)).count();
        Some(count as u64)
    }

    // How many more the `size` slots from `start` on of the larger table may take, where at most `limit` entries go into them.
    fn room_left(&self, start: u64, size: u64, limit: u64) -> Option<u64>
        requires { start + size ≤ 2 ^ 32 }
        ensures { (mix : Mixing) (l : Entries) → Stores A.Table mix self.now.table.now self.now.shape.k self.now.shape.v self.now.shape.b l → start + size ≤ 2 ^ (self.now.shape.b + 1)
            → is_some result ≡ within limit (range_load (slot_of mix.forth self.now.shape.k (self.now.shape.b + 1)) start size l) }
    {
        let mut room = limit;
        for i in 0..size {
            room = room.checked_sub(self.moved_size(start + i)?)?;
        }
        Some(room)
    }

    // Whether every group of the larger table holds what goes into it, by its own group size and limit.
    fn all_hold<B: Table>(&self, second: &B) -> bool
        ensures { (mix : Mixing) (l : Entries) → LawfulMixing mix → Stores A.Table mix self.now.table.now self.now.shape.k self.now.shape.v self.now.shape.b l
            → B.Table.fits second.now self.now.shape.k self.now.shape.v (self.now.shape.b + 1) ≡ true
            → result ≡ groups_hold (slot_of mix.forth self.now.shape.k (self.now.shape.b + 1)) B.Table.group B.Table.limit l }
    {
        let size = second.group();
        let limit = second.limit();
        let groups = (2u64 << self.shape.b) / size;
        (0..groups).all(|g| self.room_left(g * size, size, limit).is_some())
    }

    // Moves the entries of one slot, in order of arrival, after those of the slots before it.
    fn move_slot<B: Table>(&self, second: &mut B, slot: u64) -> Result<(), Refusal>
        ensures value { (mix : Mixing) (l : Entries) → LawfulMixing mix → Stores A.Table mix self.now.table.now self.now.shape.k self.now.shape.v self.now.shape.b l → slot < 2 ^ self.now.shape.b
            → groups_hold (slot_of mix.forth self.now.shape.k (self.now.shape.b + 1)) B.Table.group B.Table.limit l ≡ true
            → Stores B.Table mix second.old self.now.shape.k self.now.shape.v (self.now.shape.b + 1) (take (length (walk (slot_of mix.forth self.now.shape.k self.now.shape.b) slot l)) (walk (slot_of mix.forth self.now.shape.k self.now.shape.b) (2 ^ self.now.shape.b) l))
            → result ≡ Ok tt }
        ensures after { (mix : Mixing) (l : Entries) → LawfulMixing mix → Stores A.Table mix self.now.table.now self.now.shape.k self.now.shape.v self.now.shape.b l → slot < 2 ^ self.now.shape.b
            → groups_hold (slot_of mix.forth self.now.shape.k (self.now.shape.b + 1)) B.Table.group B.Table.limit l ≡ true
            → Stores B.Table mix second.old self.now.shape.k self.now.shape.v (self.now.shape.b + 1) (take (length (walk (slot_of mix.forth self.now.shape.k self.now.shape.b) slot l)) (walk (slot_of mix.forth self.now.shape.k self.now.shape.b) (2 ^ self.now.shape.b) l))
            → Stores B.Table mix second.new self.now.shape.k self.now.shape.v (self.now.shape.b + 1) (take (length (walk (slot_of mix.forth self.now.shape.k self.now.shape.b) (slot + 1) l)) (walk (slot_of mix.forth self.now.shape.k self.now.shape.b) (2 ^ self.now.shape.b) l)) }
        ensures len { length (B.Table.words second.new) ≡ length (B.Table.words second.old) }
        ensures fits { B.Table.fits second.new ≡ B.Table.fits second.old }
    {
        let size = self.table.size(slot).map_err(|_| Refusal::Unreached)?;
        for i in 0..size {
            let (y, w) = self.permuted_at(slot, i).ok_or(Refusal::Unreached)?;
            let place = self.shape.place_in_twice(y);
            second
                .add(place.slot, place.quotient, w)
                .map_err(|_| Refusal::Unreached)?;
        }
        Ok(())
    }

    // Forms the larger table and fills it from the old slots upwards, after `all_hold` has said that there is room.
    fn fill<B: Table>(&self, second: &mut B) -> Result<(), Refusal>
        ensures value { (mix : Mixing) (l : Entries) → LawfulMixing mix → Stores A.Table mix self.now.table.now self.now.shape.k self.now.shape.v self.now.shape.b l → B.Table.sound second.old
            → B.Table.fits second.old self.now.shape.k self.now.shape.v (self.now.shape.b + 1) ≡ true
            → groups_hold (slot_of mix.forth self.now.shape.k (self.now.shape.b + 1)) B.Table.group B.Table.limit l ≡ true → result ≡ Ok tt }
        ensures after { (mix : Mixing) (l : Entries) → LawfulMixing mix → Stores A.Table mix self.now.table.now self.now.shape.k self.now.shape.v self.now.shape.b l → B.Table.sound second.old
            → B.Table.fits second.old self.now.shape.k self.now.shape.v (self.now.shape.b + 1) ≡ true
            → groups_hold (slot_of mix.forth self.now.shape.k (self.now.shape.b + 1)) B.Table.group B.Table.limit l ≡ true
            → Stores B.Table mix second.new self.now.shape.k self.now.shape.v (self.now.shape.b + 1) l }
        ensures len { length (B.Table.words second.new) ≡ length (B.Table.words second.old) }
        ensures fits { B.Table.fits second.new ≡ B.Table.fits second.old }
    {
        second
            .form(self.shape.k, self.shape.v, self.shape.b + 1)
            .map_err(|_| Refusal::Unreached)?;
        let slots = 1u64 << self.shape.b;
        for slot in 0..slots {
            self.move_slot(second, slot)?;
        }
        Ok(())
    }
}
