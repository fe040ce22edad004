use table::refusal::TableRefusal;

/// Why a register refuses a call.
#[derive(Clone, Copy, PartialEq, Eq, Debug)]
pub enum Refusal {
    /// The item, or the number at a place of the run, is no key's.
    UnknownKey,
    /// The item is no valid value.
    UnknownValue,
    /// A run has 1 to 64 keys.
    RunLength,
    /// The register is closed.
    Closed,
    /// The register is open already.
    AlreadyOpen,
    /// The permutation's width is not that of the keys.
    PermutationWidth,
    /// The key is held under another value.
    OtherValue,
    /// There is no such place: it is not below the count.
    NoSuchPlace,
    /// No register that keeps its promise answers so.
    Unreached,
    /// The table's own refusal.
    Table(TableRefusal),
}
