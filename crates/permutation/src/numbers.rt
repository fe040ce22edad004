ghost use Rattle.std.specs.Prelude.{◌≡◌};
ghost use Rattle.permutation.specs.Refusals.{set_up_says};

use crate::refusal::SetUpRefusal;

impl SetUpRefusal {
    /// The number under which the refusal is reported.
    pub fn number(&self) -> u64
        ensures { result ≡ (set_up_says self.now).0 }
    {
        // By name: the numbers are published, and no conversion that is derived would show them.
        match self {
            SetUpRefusal::Width => 8,
            SetUpRefusal::Multiplier => 8,
            SetUpRefusal::Increment => 8,
            SetUpRefusal::Shift => 8,
            SetUpRefusal::UnequalWidths => 8,
        }
    }
}
