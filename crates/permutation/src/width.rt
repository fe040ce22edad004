ghost use Rattle.std.specs.Prelude.{◌≡◌, ◌^◌, ◌≤◌, IfOk};
ghost use Rattle.permutation.specs.Refusals.{identity_refusal};
ghost use Rattle.std.specs.Result.{result_err};

use crate::refusal::SetUpRefusal;

const NARROWEST: u32 = 1;

const WIDEST: u32 = 32;

/// The width of a permutation, in bits.
#[derive(Clone, Copy)]
pub(crate) struct Width {
    bits: u32,
    ghost some: { 1 ≤ bits },
    ghost narrow: { bits ≤ 32 },
}

impl Width {
    /// A width from 1 to 32.
    pub(crate) fn new(bits: u32) -> Result<Width, SetUpRefusal>
        ensures refused { result_err result ≡ identity_refusal bits }
        ensures made { IfOk result (λ w. w.bits ≡ bits) }
    {
        if (NARROWEST..=WIDEST).contains(&bits) {
            Ok(Width { bits })
        } else {
            Err(SetUpRefusal::Width)
        }
    }

    /// How many bits it has.
    pub(crate) fn bits(self) -> u32
        ensures { result ≡ self.bits }
    {
        self.bits
    }

    /// How many numbers are written in as many bits.
    pub(crate) fn size(self) -> u64
        ensures value { result ≡ 2 ^ self.bits }
        ensures bound { result ≤ 2 ^ 32 }
    {
        1 << self.bits
    }
}
