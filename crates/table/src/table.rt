ghost use Rattle.std.specs.Prelude.{◌≡◌, ℕ, ◌^◌, ◌≤◌, Bool, true, List, length, Err};
ghost use Rattle.table.specs.declared.refusal.TableRefusal.{TableRefusal as Refused};
ghost use Rattle.table.specs.Meaning.{Meaning, formed, formed_anew, cleared, added, removed_from, found, sized, entered, loaded, admitted, Fit, WellFormed};

use crate::refusal::TableRefusal;

/// A table of slots: what it means, and what its calls leave and answer.
pub trait Table {
    /// What a table that stands over another one has to keep; the unit for one that stands alone.
    ghost sound: { Self → Type 0 };

    /// Unformed, or formed with its widths and the entries of each slot.
    ghost means: { Self → Meaning };

    /// The words that it is kept in.
    ghost words: { Self → List ℕ };

    /// Which widths fit; fixed when the table is set up.
    ghost fits: { Self → ℕ → ℕ → ℕ → Bool };

    /// How many slots make a group.
    ghost group: { ℕ };

    /// How many entries a group may hold.
    ghost limit: { ℕ };

    // Three numbers, and no struct: any may come in, and `Shape` is the struct of those that pass; one without its facts would be made only to be taken apart.

    /// Forms the table anew, with empty slots, whatever it was before.
    fn form(&mut self, k: u32, v: u32, b: u32) -> Result<(), TableRefusal>
        ensures sound { sound self.old → sound self.new }
        ensures after { sound self.old → means self.new ≡ (formed_anew (fits self.old) (means self.old) k v b).0 }
        ensures value { sound self.old → result ≡ (formed_anew (fits self.old) (means self.old) k v b).1 }
        ensures kept { sound self.old → (e : Refused) → result ≡ Err e → words self.new ≡ words self.old }
        ensures len { length (words self.new) ≡ length (words self.old) }
        ensures fits { fits self.new ≡ fits self.old };

    /// Makes the table unformed, from any state.
    fn clear(&mut self)
        ensures sound { sound self.new }
        ensures after { means self.new ≡ cleared (means self.old) }
        ensures len { length (words self.new) ≡ length (words self.old) }
        ensures fits { fits self.new ≡ fits self.old };

    // A slot and a quotient, and no `Place`: any two numbers may come in, a `Place` is where a key stands, and `size` and `entry` take a slot alone.

    /// Puts an entry at the end of a slot's list.
    fn add(&mut self, slot: u64, quotient: u64, value: u64) -> Result<(), TableRefusal>
        ensures sound { sound self.old → sound self.new }
        ensures after { sound self.old → means self.new ≡ (added group limit (means self.old) slot quotient value).0 }
        ensures value { sound self.old → result ≡ (added group limit (means self.old) slot quotient value).1 }
        ensures kept { sound self.old → (e : Refused) → result ≡ Err e → words self.new ≡ words self.old }
        ensures len { length (words self.new) ≡ length (words self.old) }
        ensures fits { fits self.new ≡ fits self.old };

    /// Takes the entry of a quotient out of a slot, and gives its value.
    fn remove(&mut self, slot: u64, quotient: u64) -> Result<u64, TableRefusal>
        ensures sound { sound self.old → sound self.new }
        ensures after { sound self.old → means self.new ≡ (removed_from (means self.old) slot quotient).0 }
        ensures value { sound self.old → result ≡ (removed_from (means self.old) slot quotient).1 }
        ensures kept { sound self.old → (e : Refused) → result ≡ Err e → words self.new ≡ words self.old }
        ensures len { length (words self.new) ≡ length (words self.old) }
        ensures fits { fits self.new ≡ fits self.old };

    /// The value of a quotient in a slot.
    fn find(&self, slot: u64, quotient: u64) -> Result<u64, TableRefusal>
        ensures value { sound self.now → result ≡ found (means self.now) slot quotient };

    /// How many entries a slot holds.
    fn size(&self, slot: u64) -> Result<u64, TableRefusal>
        ensures value { sound self.now → result ≡ sized (means self.now) slot };

    /// The entry at a place of a slot: quotient and value.
    fn entry(&self, slot: u64, i: u64) -> Result<(u64, u64), TableRefusal>
        ensures value { sound self.now → result ≡ entered (means self.now) slot i };

    /// Whether widths fit.
    fn fits(&self, k: u32, v: u32, b: u32) -> bool
        ensures value { result ≡ fits self.now k v b };

    /// How many slots make a group.
    fn group(&self) -> u64
        ensures value { result ≡ group };

    /// How many entries a group may hold.
    fn limit(&self) -> u64
        ensures value { result ≡ limit };

    /// How many entries a slot's group holds: the sum of its slots' sizes, which is never above the limit.
    fn load(&self, slot: u64) -> Result<u64, TableRefusal>
        ensures value { sound self.now → result ≡ loaded group (means self.now) slot }
    {
        let group = self.group();
        let first = slot / group * group;
        let mut sum = 0u64;
        // A for over numbers: a try_fold with the same saturating sum in it is no plainer.
        for i in 0..group {
            let size = self.size(first.saturating_add(i))?;
            sum = sum.saturating_add(size);
        }
        Ok(sum.min(self.limit()))
    }

    /// What `add` would answer, were `earlier` more entries in the slot's group.
    fn admits(&self, slot: u64, quotient: u64, value: u64, earlier: u64) -> Result<(), TableRefusal>
        ensures value { sound self.now → result ≡ admitted group limit (means self.now) slot quotient value earlier };

    ghost grouped: { (j : ℕ) × (group ≡ 2 ^ j) };

    ghost limited: { 1 ≤ limit };

    ghost fitting: { (t : Self) (k v b : ℕ) → fits t k v b ≡ true → Fit group k v b };

    ghost well: { (t : Self) → sound t → (k v b : ℕ) (slots : List (List (ℕ × ℕ))) → means t ≡ formed k v b slots → WellFormed group limit (fits t) k v b slots };
}
