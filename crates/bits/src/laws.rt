//! The laws that callers lean on, each a theorem on the contract of a function that does nothing.
ghost use Rattle.bits.specs.Laws.{AreaLaws, FieldLaws, MarkLaws};

/// Areas of words and their numbers.
pub fn area_laws()
    ensures { AreaLaws }
{}

/// Fields, and the lists of them.
pub fn field_laws()
    ensures { FieldLaws }
{}

/// Sizes, and their marks.
pub fn mark_laws()
    ensures { MarkLaws }
{}
