ghost use Rattle.std.specs.Prelude.{◌≡◌, length, replicate, Decides};

/// Makes every word zero.
pub fn zero(words: &mut [u64])
    ensures after { words.new ≡ replicate (length words.old) 0 }
{
    words.fill(0);
}

/// Whether every word is zero.
pub fn all_zero(words: &[u64]) -> bool
    ensures value { Decides result (words.now ≡ replicate (length words.now) 0) }
{
    words.iter().all(|word| *word == 0)
}
