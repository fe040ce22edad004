//! Up to 64 bits at any place of an area, which is zero past its end.
ghost use Rattle.std.specs.Prelude.{◌≡◌, ℕ, ◌+◌, ◌-◌, ◌*◌, ◌%◌, ◌^◌, ◌<◌, ◌≤◌, length, min, slice_index, slice_set};
ghost use Rattle.bits.specs.Area.{number, words_of, bits, splice, wide};
ghost use Rattle.bits.specs.Words.{merge};

/// The number of bits in a word.
pub(crate) const WORD: u32 = 64;

/// How many bits a field has, a word's at most.
#[derive(Clone, Copy)]
pub(crate) struct Width {
    bits: u32,
    ghost narrow: { bits ≤ 64 },
}

impl Width {
    /// The width that `bits` counts as: a larger one than a word's counts as none.
    #[tactic(auto, unfolding(crate::specs::Area::wide))]
    pub(crate) fn of(bits: u32) -> Width
        ensures { result.bits ≡ wide bits }
    {
        if bits <= WORD {
            Width { bits }
        } else {
            Width { bits: 0 }
        }
    }

    /// As many of `bits` bits as a word has.
    pub(crate) fn up_to(bits: u128) -> Width
        ensures { result.bits ≡ min bits 64 }
    {
        Width {
            bits: bits.min(WORD as u128) as u32,
        }
    }

    /// The number of bits.
    pub(crate) fn bits(self) -> u128
        ensures { result ≡ self.bits }
    {
        self.bits as u128
    }

    /// The bit where field `index` begins.
    pub(crate) fn place(self, index: u64) -> u128
        ensures { result ≡ index * self.bits }
    {
        index as u128 * self.bits as u128
    }

    /// The lowest bits of a word, all ones.
    #[tactic(auto, using(crate::proofs::Gets::ones_shr))]
    fn ones(self) -> u64
        ensures { result ≡ 2 ^ self.bits - 1 }
    {
        u64::MAX.checked_shr(WORD - self.bits).unwrap_or(0)
    }
}

/// Word `word` of `area`, 0 past its end.
pub(crate) fn word_at(area: &[u64], word: u128) -> u64
    ensures { result ≡ slice_index area.now word }
{
    if word < area.len() as u128 {
        area[word as usize]
    } else {
        0
    }
}

/// Replaces the bits of word `word` that `mask` has by those of `value`; past the end there is none.
fn merge_word(area: &mut [u64], word: u128, mask: u64, value: u64)
    ensures { area.new ≡ slice_set area.old word (merge (slice_index area.old word) mask value) }
{
    if word < area.len() as u128 {
        let i = word as usize;
        area[i] = area[i] & !mask | value;
    }
}

/// The `width` bits of `area` from bit `at` up.
pub(crate) fn read_bits(area: &[u64], at: u128, width: Width) -> u64
    ensures value { result ≡ bits (number area.now) at width.bits }
    ensures bound { result < 2 ^ width.bits }
{
    let word = at / WORD as u128;
    let bit = (at % WORD as u128) as u32;
    let mask = width.ones();
    let low = word_at(area, word) >> bit;
    if bit + width.bits <= WORD {
        low & mask
    } else {
        (low | word_at(area, word + 1) << (WORD - bit)) & mask
    }
}

/// Sets the `width` bits of `area` from bit `at` up to those of `value`.
pub(crate) fn write_bits(area: &mut [u64], at: u128, width: Width, value: u64)
    ensures { area.new ≡ words_of (length area.old) (splice (number area.old) at width.bits (value % 2 ^ width.bits)) }
{
    let word = at / WORD as u128;
    let bit = (at % WORD as u128) as u32;
    let mask = width.ones();
    let low = value & mask;
    merge_word(area, word, mask << bit, low << bit);
    if bit + width.bits > WORD {
        merge_word(area, word + 1, mask >> (WORD - bit), low >> (WORD - bit));
    }
}
