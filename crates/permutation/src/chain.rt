ghost use Rattle.std.specs.Prelude.{◌≡◌, max, IfOk};
ghost use Rattle.permutation.specs.Formulas.{chained};
ghost use Rattle.permutation.specs.Refusals.{chain_refusal};
ghost use Rattle.std.specs.Result.{result_err};
ghost use Rattle.std.proofs.Math.Nat.{le-max_left, le-max_right};
ghost use Rattle.permutation.specs.Widening.{chained_within, chained_beyond};
ghost use Rattle.std.proofs.Common.{rules};

use crate::Permutation;
use crate::refusal::SetUpRefusal;

/// Two permutations, one after the other. A chain that `new` made has their one width; of any other chain the larger width does, since each
/// of the two leaves alone what is beyond its own.
#[derive(Drop)]
pub struct Chain<P, Q> {
    first: P,
    second: Q,
}

impl<P: Permutation + Drop, Q: Permutation + Drop> Chain<P, Q> {
    /// First the one, then the other; both of one width.
    pub fn new(first: P, second: Q) -> Result<Chain<P, Q>, SetUpRefusal>
        ensures refused { result_err result ≡ chain_refusal (P.Permutation.width first) (Q.Permutation.width second) }
        ensures made { IfOk result (λ p. (p.first ≡ first) × (p.second ≡ second) × (max (P.Permutation.width p.first) (Q.Permutation.width p.second) ≡ P.Permutation.width first)) }
    {
        if first.width() != second.width() {
            return Err(SetUpRefusal::UnequalWidths);
        }
        Ok(Chain { first, second })
    }
}

impl<P: Permutation, Q: Permutation> Permutation for Chain<P, Q> {
    ghost width = { λ p. max (P.Permutation.width p.first) (Q.Permutation.width p.second) };

    ghost forth = { λ p. chained (P.Permutation.forth p.first) (Q.Permutation.forth p.second) };

    ghost back = { λ p. chained (Q.Permutation.back p.second) (P.Permutation.back p.first) };

    ghost some = { Prim.search rules };

    ghost narrow = { Prim.search rules };

    ghost within = { λ p.
        chained_within (P.Permutation.forth p.first) (Q.Permutation.forth p.second) _ _ _ (le-max_left _ _) (le-max_right _ _)
        (P.Permutation.within p.first) (P.Permutation.beyond p.first)
        (Q.Permutation.within p.second) (Q.Permutation.beyond p.second) };

    ghost inside = { λ p.
        chained_within (Q.Permutation.back p.second) (P.Permutation.back p.first) _ _ _ (le-max_right _ _) (le-max_left _ _)
        (Q.Permutation.inside p.second) (Q.Permutation.outside p.second)
        (P.Permutation.inside p.first) (P.Permutation.outside p.first) };

    ghost returns = { Prim.search rules };

    ghost arrives = { Prim.search rules };

    ghost beyond = { λ p.
        chained_beyond (P.Permutation.forth p.first) (Q.Permutation.forth p.second) _ _ _ (le-max_left _ _) (le-max_right _ _)
        (P.Permutation.beyond p.first) (Q.Permutation.beyond p.second) };

    ghost outside = { λ p.
        chained_beyond (Q.Permutation.back p.second) (P.Permutation.back p.first) _ _ _ (le-max_right _ _) (le-max_left _ _)
        (Q.Permutation.outside p.second) (P.Permutation.outside p.first) };

    fn width(&self) -> u32 {
        self.first.width().max(self.second.width())
    }

    fn forth(&self, n: u64) -> u64 {
        self.second.forth(self.first.forth(n))
    }

    fn back(&self, y: u64) -> u64 {
        self.first.back(self.second.back(y))
    }
}
