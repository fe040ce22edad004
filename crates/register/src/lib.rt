//! A register of keys and values over any codings, any permutation and any two tables: the seven calls, each by its own function and
//! through `put`, and lists of calls through `replay`. Every answer is that of the plain machine of the crate `model`.
#![tactic(auto)]

mod assemble;
mod calls;
mod cancel;
mod in_use;
mod parts;
mod put;
mod reading;
mod replays;
mod side;
mod sides;
mod state;
mod take;

pub use parts::Parts;
pub use replays::{replay, replay_both};
pub use side::Side;
pub use state::Register;
