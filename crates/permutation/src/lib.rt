//! Bijections of the numbers below 2^k, one interface and four kinds: the identity, a multiplication with an addition, an XOR with a
//! shift, and a chain of any two. Each states by a formula what becomes of every number, and its laws hold of every value of its type.
#![tactic(auto)]

ghost use Rattle.std.specs.Prelude.{◌≡◌, ℕ, ◌^◌, ◌<◌, ◌≤◌};

mod affine;
mod chain;
mod identity;
mod numbers;
mod refusal;
mod width;
mod xor_shift;

pub use affine::Affine;
pub use chain::Chain;
pub use identity::Identity;
pub use refusal::SetUpRefusal;
pub use xor_shift::XorShift;

/// A permutation of the numbers below 2^width; every other number stays as it is, in both directions.
pub trait Permutation {
    ghost width: { Self → ℕ };

    ghost forth: { Self → ℕ → ℕ };

    ghost back: { Self → ℕ → ℕ };

    /// The width.
    fn width(&self) -> u32
        ensures { result ≡ width self.now };

    /// Where a number goes.
    fn forth(&self, n: u64) -> u64
        ensures { result ≡ forth self.now n };

    /// Where a number comes from.
    fn back(&self, y: u64) -> u64
        ensures { result ≡ back self.now y };

    // the width is 1 to 32
    ghost some: { (s : Self) → 1 ≤ width s };

    ghost narrow: { (s : Self) → width s ≤ 32 };

    // a number below 2^width goes to one, and comes from one
    ghost within: { (s : Self) (n : ℕ) → n < 2 ^ width s → forth s n < 2 ^ width s };

    ghost inside: { (s : Self) (n : ℕ) → n < 2 ^ width s → back s n < 2 ^ width s };

    // there and back, and back and there
    ghost returns: { (s : Self) (n : ℕ) → back s (forth s n) ≡ n };

    ghost arrives: { (s : Self) (n : ℕ) → forth s (back s n) ≡ n };

    // a number of 2^width or more stays
    ghost beyond: { (s : Self) (n : ℕ) → 2 ^ width s ≤ n → forth s n ≡ n };

    ghost outside: { (s : Self) (n : ℕ) → 2 ^ width s ≤ n → back s n ≡ n };
}
