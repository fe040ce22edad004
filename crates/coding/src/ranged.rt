//! Codings of items that are one number from a first to a last: an item's number is its own.
ghost use Rattle.coding.specs.Ranged.{ranged_item, ranged_number};
ghost use Rattle.std.specs.Prelude.{◌≡◌, ℕ, ◌^◌, ◌<◌, ◌≤◌};
ghost use Rattle.std.proofs.Common.{rules};

use crate::Coding;

/// A coding of items that are one number each: which of them are valid, and how wide their numbers are.
pub trait Ranged {
    type Item: Copy;

    ghost WIDTH: { ℕ };

    ghost FIRST: { ℕ };

    ghost LAST: { ℕ };

    ghost number_of: { Self.Item → ℕ };

    ghost item_of: { ℕ → Self.Item };

    /// How many bits a number has.
    const WIDTH: u32;
    /// The first valid number.
    const FIRST: u64;
    /// The last valid number.
    const LAST: u64;

    /// The number that the item is.
    fn number_of(x: Self::Item) -> u64
        ensures { result ≡ number_of x };

    /// The item that the number is.
    fn item_of(n: u64) -> Self::Item
        ensures { result ≡ item_of n };

    ghost narrow: { WIDTH ≤ 32 };

    ghost within: { LAST < 2 ^ WIDTH };

    ghost back: { (x : Self.Item) → item_of (number_of x) ≡ x };

    ghost forth: { (n : ℕ) → number_of (item_of n) ≡ n };
}

impl<R: Ranged> Coding for R {
    type Item = R::Item;

    ghost width = { λ _. R.WIDTH };

    ghost number = { λ _. ranged_number R.FIRST R.LAST R.number_of };

    ghost item = { λ _. ranged_item R.FIRST R.LAST R.item_of };

    ghost narrow = { Prim.search rules };

    ghost below = { Prim.search rules };

    ghost back = { Prim.search rules };

    ghost forth = { Prim.search rules };

    fn width(&self) -> u32 {
        R::WIDTH
    }

    fn number(&self, x: R::Item) -> Option<u64> {
        let n = R::number_of(x);
        (R::FIRST..=R::LAST).contains(&n).then_some(n)
    }

    fn item(&self, n: u64) -> Option<R::Item> {
        (R::FIRST..=R::LAST).contains(&n).then_some(R::item_of(n))
    }
}
