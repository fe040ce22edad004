ghost use Rattle.std.specs.Prelude.{◌≡◌, ◌/◌, ◌^◌, ◌<◌, ◌≤◌, IfOk, bit_xor};
ghost use Rattle.permutation.specs.Formulas.{xor_shift_forth, xor_shift_back, xor_below};
ghost use Rattle.permutation.specs.Refusals.{xor_shift_refusal};
ghost use Rattle.std.specs.Result.{result_err};
ghost use Rattle.permutation.specs.Below.{below_within, below_returns};
ghost use Rattle.permutation.specs.Shifts.{forth_lt, term, back_lt, shift_returns, shift_arrives};
ghost use Rattle.std.proofs.Common.{rules};

use crate::Permutation;
use crate::refusal::SetUpRefusal;
use crate::width::Width;

/// The XOR of a number and the same shifted down.
#[derive(Clone, Copy)]
pub struct XorShift {
    width: Width,
    shift: u32,
    ghost moves: { 1 ≤ shift },
    ghost leaves: { shift < width.bits },
}

impl XorShift {
    /// Shifts down by 1 to width − 1 bits.
    pub fn new(width: u32, shift: u32) -> Result<XorShift, SetUpRefusal>
        ensures refused { result_err result ≡ xor_shift_refusal width shift }
        ensures made { IfOk result (λ p. (p.width.bits ≡ width) × (p.shift ≡ shift)) }
    {
        let width = Width::new(width)?;
        if shift == 0 || shift >= width.bits() {
            return Err(SetUpRefusal::Shift);
        }
        Ok(XorShift { width, shift })
    }
}

impl Permutation for XorShift {
    ghost width = { λ p. p.width.bits };

    ghost forth = { λ p. xor_shift_forth p.width.bits p.shift };

    ghost back = { λ p. xor_shift_back p.width.bits p.shift };

    ghost some = { Prim.search rules };

    ghost narrow = { Prim.search rules };

    ghost within = { λ p. below_within p.width.bits (λ n. bit_xor n (n / 2 ^ p.shift)) (forth_lt p.width.bits p.shift p.moves) };

    ghost inside = { λ p. below_within p.width.bits (λ y. xor_below p.width.bits (term p.width.bits p.shift y)) (back_lt p.width.bits p.shift p.moves) };

    ghost returns = { λ p.
        below_returns p.width.bits (λ n. bit_xor n (n / 2 ^ p.shift)) (λ y. xor_below p.width.bits (term p.width.bits p.shift y))
        (forth_lt p.width.bits p.shift p.moves) (shift_returns p.width.bits p.shift p.moves) };

    ghost arrives = { λ p.
        below_returns p.width.bits (λ y. xor_below p.width.bits (term p.width.bits p.shift y)) (λ n. bit_xor n (n / 2 ^ p.shift))
        (back_lt p.width.bits p.shift p.moves) (shift_arrives p.width.bits p.shift p.moves) };

    ghost beyond = { Prim.search rules };

    ghost outside = { Prim.search rules };

    fn width(&self) -> u32 {
        self.width.bits()
    }

    fn forth(&self, n: u64) -> u64 {
        if n < self.width.size() {
            n ^ (n >> self.shift)
        } else {
            n
        }
    }

    fn back(&self, y: u64) -> u64 {
        if y >= self.width.size() {
            return y;
        }
        let mut found = 0;
        for shift in (0..self.width.bits()).step_by(self.shift as usize) {
            found ^= y >> shift;
        }
        found
    }
}
