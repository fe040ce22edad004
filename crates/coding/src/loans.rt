//! Loans in 21 bits: the number of the pitch on its last night, and below it one bit for the deposit.
ghost use Rattle.coding.specs.Loans.{loan_item, loan_number};
ghost use Rattle.std.proofs.Common.{rules};

use crate::Coding;
use crate::items::{Loan, Night};
use crate::nights::NightCoding;

/// How many bits the number of a loan has.
const WIDTH: u32 = 21;

/// Loans for any pitch up to any night that exists, with the deposit paid or not.
#[derive(Clone, Copy)]
pub struct LoanCoding;

impl Coding for LoanCoding {
    type Item = Loan;

    ghost width = { λ _. 21 };

    ghost number = { λ _. loan_number };

    ghost item = { λ _. loan_item };

    ghost narrow = { Prim.search rules };

    ghost below = { Prim.search rules };

    ghost back = { Prim.search rules };

    ghost forth = { Prim.search rules };

    fn width(&self) -> u32 {
        WIDTH
    }

    fn number(&self, x: Loan) -> Option<u64> {
        let until = Night {
            pitch: x.pitch,
            night: x.last,
        };
        let n = NightCoding.number(until)?;
        Some(2 * n + u64::from(x.paid))
    }

    fn item(&self, n: u64) -> Option<Loan> {
        NightCoding.item(n / 2).map(|until| Loan {
            pitch: until.pitch,
            last: until.night,
            paid: n % 2 == 1,
        })
    }
}
