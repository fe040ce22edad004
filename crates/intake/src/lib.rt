//! What `reception` and `desk` share at their edges: the arguments, the list that they name, and how a run ends.
#![tactic(auto)]

pub mod arguments;
pub mod ending;
pub mod list;
pub mod options;
