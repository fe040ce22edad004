//! Where permutations take the numbers of 8 bits.
use expected::numbers::{power, rest, times};
use std::alloc::{AllocError, Global};

/// The permuted numbers that repeated addition of a multiplier gives, from an increment on.
pub fn added_up(heap: Global, multiplier: u64, increment: u64) -> Result<Vec<u64>, AllocError> {
    let mut all = vec![in heap; 0u64; 256]?;
    let mut y = increment;
    for each in all.iter_mut() {
        *each = rest(y, 256);
        y = each.saturating_add(multiplier);
    }
    Ok(all)
}

/// A number with its upper bits put over its lower ones, bit by bit.
fn fold(x: u64, shift: u32) -> u64 {
    let y = times(x, power(shift));
    (0..8u32)
        .map(|j| power(j))
        .filter(|p| times(x, *p) % 2 != times(y, *p) % 2)
        .fold(0u64, |sum, p| sum.saturating_add(p))
}

/// Each number folded.
pub fn folded(heap: Global, before: &[u64], shift: u32) -> Result<Vec<u64>, AllocError> {
    before.iter().map(|x| fold(*x, shift)).collect(heap)
}
