ghost use Rattle.std.specs.Prelude.{◌-◌, ◌^◌, ◌≤◌};
ghost use Rattle.dictionary.specs.Results.{InReach};

use crate::addressing::Addressing;
use crate::run::Run;

// A run whose key numbers all have places, and whose value number is in range.
#[derive(Drop)]
pub(crate) struct Reached<'a, P> {
    pub(crate) by: Addressing<'a, P>,
    pub(crate) run: Run,
    ghost there: { InReach by.shape.k by.shape.v run.first run.length run.value },
    ghost near: { run.length ≤ 2 ^ 32 - run.first },
}
