ghost use Rattle.std.specs.Prelude.{◌≡◌, ◌%◌};
ghost use Rattle.expected.specs.Noise.{after, drawn};

use crate::numbers::rest;

/// Numbers that look random, the same in every run.
#[derive(Clone, Copy, PartialEq, Eq, Debug)]
pub struct Noise {
    pub state: u64,
}

impl Noise {
    /// Noise that begins at a number.
    pub fn new(state: u64) -> Noise
        ensures value { result.state ≡ state }
    {
        Noise { state }
    }

    /// The next number, of 31 bits.
    pub fn next(&mut self) -> u64
        ensures value { result ≡ drawn (after self.old.state) }
        ensures after { self.new.state ≡ after self.old.state }
    {
        self.state = self
            .state
            .wrapping_mul(6364136223846793005)
            .wrapping_add(1442695040888963407);
        self.state >> 33
    }

    /// The next number below n; the next one at all where n is 0.
    pub fn below(&mut self, n: u64) -> u64
        ensures value { result ≡ drawn (after self.old.state) % n }
        ensures after { self.new.state ≡ after self.old.state }
    {
        rest(self.next(), n)
    }
}
