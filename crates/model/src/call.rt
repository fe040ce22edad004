/// One call to a register; `K` and `V` are the items of its keys and of its values.
#[derive(Clone, Copy, PartialEq, Eq, Debug)]
pub enum Call<K, V> {
    /// Opens a closed register, with 2^b slots.
    Open(u32),
    /// Takes n keys, from this one on, under a value.
    Take(K, u64, V),
    /// Cancels n keys, from this one on, that are held under a value.
    Cancel(K, u64, V),
    /// Asks for the value that a key is held under.
    Find(K),
    /// Asks how many keys are held.
    Count,
    /// Asks for the entry at a place of the walk over the slots.
    At(u64),
    /// Doubles the number of slots, in the other table.
    Enlarge,
}
