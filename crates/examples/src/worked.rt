//! The worked examples, proved of the definitions.
ghost use Rattle.examples.specs.Worked.{Worked};

/// Every worked example holds.
pub fn worked()
    ensures { Worked }
{}
