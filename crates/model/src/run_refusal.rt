use crate::refusal::Refusal;

/// Why a run of keys is refused, and at which of them, the first being at place 0.
#[derive(Clone, Copy, PartialEq, Eq, Debug)]
pub struct RunRefusal {
    pub place: u64,
    pub why: Refusal,
}
