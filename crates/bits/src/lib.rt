//! Bits of an area, which is a run of 64-bit words: fields of any width up to 64, and unary marks.
//! Everything above speaks of fields, slots and places; shifts and masks stay here, and are proved once, over the width.
#![tactic(auto)]

pub mod fields;
pub mod laws;
pub mod marks;
mod words;
pub mod zeros;
