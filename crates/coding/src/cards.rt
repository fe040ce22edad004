//! Barrier cards in 32 bits: a card's number is the one printed on it.
ghost use Rattle.coding.specs.Cards.{first_card, last_card};
ghost use Rattle.std.proofs.Common.{rules};

use crate::items::Card;
use crate::ranged::Ranged;

/// The cards 1 to 4,294,967,295.
#[derive(Clone, Copy)]
pub struct CardCoding;

impl Ranged for CardCoding {
    type Item = Card;

    ghost WIDTH = { 32 };

    ghost FIRST = { first_card };

    ghost LAST = { last_card };

    ghost number_of = { λ x. x.number };

    ghost item_of = { λ n. record { number = n } };

    ghost narrow = { Prim.search rules };

    ghost within = { Prim.search rules };

    ghost back = { Prim.search rules };

    ghost forth = { Prim.search rules };

    const WIDTH: u32 = 32;
    /// There is no card 0.
    const FIRST: u64 = 1;
    /// 2^32 - 1.
    const LAST: u64 = 4_294_967_295;

    fn number_of(x: Card) -> u64 {
        x.number
    }

    fn item_of(n: u64) -> Card {
        Card { number: n }
    }
}
