ghost use Rattle.model.specs.Tried.{Tried};

/// The machine tried on numbers.
pub fn tried()
    ensures { Tried }
{}
