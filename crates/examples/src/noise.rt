//! Numbers that look like chance and are the same in every run.

/// The number after `seed`.
pub fn next(seed: u64) -> u64 {
    let x = seed
        .wrapping_mul(6364136223846793005)
        .wrapping_add(1442695040888963407);
    x ^ (x >> 29)
}

/// Fills `words` with numbers from `seed` on.
pub fn fill(words: &mut [u64], seed: u64) {
    let mut x = seed;
    for w in words.iter_mut() {
        x = next(x);
        *w = x;
    }
}
