ghost use Rattle.std.specs.Prelude.{◌≡◌, ◌+◌, ◌-◌, ◌*◌, ◌%◌, ◌^◌, ◌<◌, ◌≤◌, IfOk};
ghost use Rattle.permutation.specs.Formulas.{affine_forth, affine_back, Inverse, inverse_of};
ghost use Rattle.permutation.specs.Refusals.{affine_refusal};
ghost use Rattle.std.specs.Result.{result_err};
ghost use Rattle.std.proofs.Common.{mod-lt, pow_pos, rules};
ghost use Rattle.permutation.specs.Below.{below_returns};
ghost use Rattle.permutation.specs.Modulo.{affine_returns, affine_arrives};

use crate::Permutation;
use crate::refusal::SetUpRefusal;
use crate::width::Width;

/// A multiplication by an odd number and an addition, both by 2^width.
#[derive(Clone, Copy)]
pub struct Affine {
    width: Width,
    multiplier: u64,
    increment: u64,
    inverse: u64,
    ghost factor: { multiplier < 2 ^ width.bits },
    ghost summand: { increment < 2 ^ width.bits },
    ghost inverts: { Inverse width.bits multiplier inverse },
}

impl Affine {
    /// Multiplies by an odd multiplier and adds the increment, both below 2^width.
    #[tactic(auto, using(crate::proofs::Inverses::inverse_is))]
    pub fn new(width: u32, multiplier: u64, increment: u64) -> Result<Affine, SetUpRefusal>
        ensures refused { result_err result ≡ affine_refusal width multiplier increment }
        ensures made { IfOk result (λ p. (p.width.bits ≡ width) × (p.multiplier ≡ multiplier) × (p.increment ≡ increment) × Inverse width multiplier p.inverse × (p.inverse ≡ inverse_of width multiplier)) }
    {
        let width = Width::new(width)?;
        let size = width.size();
        if multiplier % 2 == 0 || multiplier >= size {
            return Err(SetUpRefusal::Multiplier);
        }
        if increment >= size {
            return Err(SetUpRefusal::Increment);
        }
        let inverse = invert(width, multiplier);
        Ok(Affine {
            width,
            multiplier,
            increment,
            inverse,
        })
    }

    /// What the way back multiplies by: its product with the multiplier leaves 1 by 2^width.
    #[tactic(auto, using(crate::proofs::Inverses::inverse_is))]
    pub fn inverse(&self) -> u64
        ensures value { result ≡ inverse_of self.now.width.bits self.now.multiplier }
        ensures inverts { Inverse self.now.width.bits self.now.multiplier result }
    {
        self.inverse
    }
}

/// The inverse of an odd number by 2^width, found bit by bit.
fn invert(width: Width, odd: u64) -> u64
    requires { (odd < 2 ^ width.bits) × (odd % 2 ≡ 1) }
    ensures { Inverse width.bits odd result }
{
    let mut inverse = 1;
    for bit in 1..width.bits() {
        // the product leaves 1 by 2^bit: where its next bit is set, one more bit of the inverse clears it
        if ((odd * inverse) >> bit) % 2 == 1 {
            inverse += 1 << bit;
        }
    }
    inverse
}

impl Permutation for Affine {
    ghost width = { λ p. p.width.bits };

    ghost forth = { λ p. affine_forth p.width.bits p.multiplier p.increment };

    ghost back = { λ p. affine_back p.width.bits p.inverse p.increment };

    ghost some = { Prim.search rules };

    ghost narrow = { Prim.search rules };

    ghost within = { Prim.search rules };

    ghost inside = { Prim.search rules };

    ghost returns = { λ p.
        below_returns p.width.bits (λ n. (p.multiplier * n + p.increment) % 2 ^ p.width.bits) (λ y. p.inverse * (y + 2 ^ p.width.bits - p.increment) % 2 ^ p.width.bits)
        (λ n _. mod-lt (p.multiplier * n + p.increment) (pow_pos p.width.bits))
        (affine_returns p.multiplier p.inverse p.increment (2 ^ p.width.bits) p.summand p.inverts.1) };

    ghost arrives = { λ p.
        below_returns p.width.bits (λ y. p.inverse * (y + 2 ^ p.width.bits - p.increment) % 2 ^ p.width.bits) (λ n. (p.multiplier * n + p.increment) % 2 ^ p.width.bits)
        (λ y _. mod-lt (p.inverse * (y + 2 ^ p.width.bits - p.increment)) (pow_pos p.width.bits))
        (affine_arrives p.multiplier p.inverse p.increment (2 ^ p.width.bits) p.summand p.inverts.1) };

    ghost beyond = { Prim.search rules };

    ghost outside = { Prim.search rules };

    fn width(&self) -> u32 {
        self.width.bits()
    }

    fn forth(&self, n: u64) -> u64 {
        let size = self.width.size();
        if n < size {
            (self.multiplier * n + self.increment) % size
        } else {
            n
        }
    }

    fn back(&self, y: u64) -> u64 {
        let size = self.width.size();
        if y < size {
            (self.inverse * ((y + size - self.increment) % size)) % size
        } else {
            y
        }
    }
}
