ghost use Rattle.std.specs.Prelude.{◌≡◌, ◌+◌, ◌-◌, ◌*◌, ◌/◌, ◌%◌, ◌^◌, min};
ghost use Rattle.expected.specs.Blocks.{area};

/// 2 to the n, cut at the greatest number.
pub fn power(n: u32) -> u64
    ensures value { result ≡ min (2 ^ n) (2 ^ 64 - 1) }
{
    2u64.saturating_pow(n)
}

/// How often d goes into x; 0 where d is 0.
pub fn times(x: u64, d: u64) -> u64
    ensures value { result ≡ x / d }
{
    x.checked_div(d).unwrap_or(0)
}

/// What is left of x then.
pub fn rest(x: u64, d: u64) -> u64
    ensures value { result ≡ x % d }
{
    x.checked_rem(d).unwrap_or(x)
}

/// How many words 48 fields of a width take.
pub fn area(width: u32) -> u64
    ensures value { result ≡ area width }
{
    (u64::from(width) * 48 + 63) / 64
}
