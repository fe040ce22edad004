//! What the codings of ranged items come to: a theorem on the contract of a function that does nothing.
ghost use Rattle.coding.specs.Bookings.{booking_item, booking_number};
ghost use Rattle.coding.specs.Cards.{card_item, card_number};
ghost use Rattle.std.specs.Prelude.{◌≡◌, ℕ};

use crate::Coding;
use crate::bookings::BookingCoding;
use crate::cards::CardCoding;
use crate::items::{Booking, Card};

/// Bookings and cards have the widths and the numbers that their definitions say, and no others.
pub fn ranged_laws()
    ensures widths { ((s : BookingCoding) → ⟦<BookingCoding as Coding>⟧.width s ≡ 24) × ((s : CardCoding) → ⟦<CardCoding as Coding>⟧.width s ≡ 32) }
    ensures bookings { (s : BookingCoding) (x : Booking) → ⟦<BookingCoding as Coding>⟧.number s x ≡ booking_number x }
    ensures booking_items { (s : BookingCoding) (n : ℕ) → ⟦<BookingCoding as Coding>⟧.item s n ≡ booking_item n }
    ensures cards { (s : CardCoding) (x : Card) → ⟦<CardCoding as Coding>⟧.number s x ≡ card_number x }
    ensures card_items { (s : CardCoding) (n : ℕ) → ⟦<CardCoding as Coding>⟧.item s n ≡ card_item n }
{}
