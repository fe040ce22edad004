ghost use Rattle.std.specs.Prelude.{◌≡◌, IfOk};
ghost use Rattle.permutation.specs.Refusals.{identity_refusal};
ghost use Rattle.std.specs.Result.{result_err};
ghost use Rattle.std.proofs.Common.{rules};

use crate::Permutation;
use crate::refusal::SetUpRefusal;
use crate::width::Width;

/// Every number stays as it is.
#[derive(Clone, Copy)]
pub struct Identity {
    width: Width,
}

impl Identity {
    /// The identity of a width from 1 to 32.
    pub fn new(width: u32) -> Result<Identity, SetUpRefusal>
        ensures refused { result_err result ≡ identity_refusal width }
        ensures made { IfOk result (λ p. p.width.bits ≡ width) }
    {
        Ok(Identity {
            width: Width::new(width)?,
        })
    }
}

impl Permutation for Identity {
    ghost width = { λ p. p.width.bits };

    ghost forth = { λ _ n. n };

    ghost back = { λ _ n. n };

    ghost some = { Prim.search rules };

    ghost narrow = { Prim.search rules };

    ghost within = { Prim.search rules };

    ghost inside = { Prim.search rules };

    ghost returns = { Prim.search rules };

    ghost arrives = { Prim.search rules };

    ghost beyond = { Prim.search rules };

    ghost outside = { Prim.search rules };

    fn width(&self) -> u32 {
        self.width.bits()
    }

    fn forth(&self, n: u64) -> u64 {
        n
    }

    fn back(&self, y: u64) -> u64 {
        y
    }
}
