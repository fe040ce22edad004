//! Nights in 20 bits: the pitch in the upper ten, the night in the lower ten.
ghost use Rattle.coding.specs.Nights.{night_item, night_number};
ghost use Rattle.std.proofs.Common.{rules};

use crate::Coding;
use crate::items::Night;

/// How many bits the number of a night has.
const WIDTH: u32 = 20;
/// The last pitch of a site; the first is 0.
const LAST_PITCH: u64 = 999;
/// The last night of two years; the first is 0.
const LAST_NIGHT: u64 = 731;
/// How many numbers each pitch has; those past its last night stay unused.
const NUMBERS: u64 = 1024;

/// The pitches 0 to 999 on the nights 0 to 731.
#[derive(Clone, Copy)]
pub struct NightCoding;

impl Coding for NightCoding {
    type Item = Night;

    ghost width = { λ _. 20 };

    ghost number = { λ _. night_number };

    ghost item = { λ _. night_item };

    ghost narrow = { Prim.search rules };

    ghost below = { Prim.search rules };

    ghost back = { Prim.search rules };

    ghost forth = { Prim.search rules };

    fn width(&self) -> u32 {
        WIDTH
    }

    fn number(&self, x: Night) -> Option<u64> {
        if x.pitch <= LAST_PITCH && x.night <= LAST_NIGHT {
            Some(x.pitch * NUMBERS + x.night)
        } else {
            None
        }
    }

    fn item(&self, n: u64) -> Option<Night> {
        let pitch = n / NUMBERS;
        let night = n % NUMBERS;
        if pitch <= LAST_PITCH && night <= LAST_NIGHT {
            Some(Night { pitch, night })
        } else {
            None
        }
    }
}
