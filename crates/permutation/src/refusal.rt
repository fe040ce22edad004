/// Why a permutation is not set up.
#[derive(Clone, Copy, PartialEq, Eq, Debug)]
pub enum SetUpRefusal {
    /// A width is 1 to 32.
    Width,
    /// A multiplier is odd and has at most the width's bits.
    Multiplier,
    /// An increment has at most the width's bits.
    Increment,
    /// A shift is 1 or more, and less than the width.
    Shift,
    /// The two permutations of a chain have one width.
    UnequalWidths,
}
