//! Set-ups of permutations, and what is wrong with them.
use crate::cases::Cases;
use permutation::{Affine, Chain, Identity, SetUpRefusal, XorShift};
use std::io;

/// That a set-up is refused as wanted, under the number 8, or made.
fn set_up<P: Drop>(
    cases: &mut Cases<'_>,
    made: Result<P, SetUpRefusal>,
    want: Option<SetUpRefusal>,
) -> io::Result<()> {
    let got = made.err();
    cases.refused(got, want)?;
    if let Some(refusal) = got {
        cases.equal("number", refusal.number(), 8)?;
    }
    Ok(())
}

/// Widths, and what is wrong with them.
const WIDTHS: [(u32, Option<SetUpRefusal>); 7] = [
    (0, Some(SetUpRefusal::Width)),
    (1, None),
    (2, None),
    (31, None),
    (32, None),
    (33, Some(SetUpRefusal::Width)),
    (u32::MAX, Some(SetUpRefusal::Width)),
];

/// Widths, multipliers and increments, and what is wrong with them first.
const AFFINES: [(u32, u64, u64, Option<SetUpRefusal>); 24] = [
    (0, 0, 0, Some(SetUpRefusal::Width)),
    (0, 1, 0, Some(SetUpRefusal::Width)),
    (33, 1, 0, Some(SetUpRefusal::Width)),
    (u32::MAX, u64::MAX, u64::MAX, Some(SetUpRefusal::Width)),
    (1, 0, 0, Some(SetUpRefusal::Multiplier)),
    (1, 1, 0, None),
    (1, 1, 1, None),
    (1, 1, 2, Some(SetUpRefusal::Increment)),
    (1, 2, 0, Some(SetUpRefusal::Multiplier)),
    (1, 3, 0, Some(SetUpRefusal::Multiplier)),
    (8, 1, 0, None),
    (8, 254, 0, Some(SetUpRefusal::Multiplier)),
    (8, 255, 255, None),
    (8, 255, 256, Some(SetUpRefusal::Increment)),
    (8, 256, 0, Some(SetUpRefusal::Multiplier)),
    (8, 257, 0, Some(SetUpRefusal::Multiplier)),
    (8, 2, 256, Some(SetUpRefusal::Multiplier)),
    (8, u64::MAX, 0, Some(SetUpRefusal::Multiplier)),
    (8, 1, u64::MAX, Some(SetUpRefusal::Increment)),
    (32, 4_294_967_294, 0, Some(SetUpRefusal::Multiplier)),
    (32, 4_294_967_295, 4_294_967_295, None),
    (
        32,
        4_294_967_295,
        4_294_967_296,
        Some(SetUpRefusal::Increment),
    ),
    (32, 4_294_967_297, 0, Some(SetUpRefusal::Multiplier)),
    (33, 4_294_967_297, 0, Some(SetUpRefusal::Width)),
];

/// Widths and shifts, and what is wrong with them first.
const SHIFTS: [(u32, u32, Option<SetUpRefusal>); 15] = [
    (0, 0, Some(SetUpRefusal::Width)),
    (0, 1, Some(SetUpRefusal::Width)),
    (1, 0, Some(SetUpRefusal::Shift)),
    (1, 1, Some(SetUpRefusal::Shift)),
    (2, 0, Some(SetUpRefusal::Shift)),
    (2, 1, None),
    (2, 2, Some(SetUpRefusal::Shift)),
    (8, 7, None),
    (8, 8, Some(SetUpRefusal::Shift)),
    (32, 1, None),
    (32, 31, None),
    (32, 32, Some(SetUpRefusal::Shift)),
    (32, u32::MAX, Some(SetUpRefusal::Shift)),
    (33, 1, Some(SetUpRefusal::Width)),
    (u32::MAX, 0, Some(SetUpRefusal::Width)),
];

/// Two widths, and whether they make a chain.
const PAIRS: [(u32, u32, Option<SetUpRefusal>); 6] = [
    (1, 1, None),
    (8, 8, None),
    (32, 32, None),
    (8, 9, Some(SetUpRefusal::UnequalWidths)),
    (9, 8, Some(SetUpRefusal::UnequalWidths)),
    (1, 32, Some(SetUpRefusal::UnequalWidths)),
];

fn chain(
    cases: &mut Cases<'_>,
    one: u32,
    other: u32,
    want: Option<SetUpRefusal>,
) -> io::Result<()> {
    let (Ok(first), Ok(second)) = (Identity::new(one), Identity::new(other)) else {
        return cases.unmade();
    };
    set_up(cases, Chain::new(first, second), want)
}

/// Every constructor just inside and outside each bound.
pub fn run(rt: &HostRuntime) -> io::Result<()> {
    let mut cases = Cases::new(rt);
    for (width, want) in WIDTHS {
        set_up(&mut cases, Identity::new(width), want)?;
    }
    for (width, multiplier, increment, want) in AFFINES {
        let made = Affine::new(width, multiplier, increment);
        set_up(&mut cases, made, want)?;
    }
    for (width, shift, want) in SHIFTS {
        set_up(&mut cases, XorShift::new(width, shift), want)?;
    }
    for (one, other, want) in PAIRS {
        chain(&mut cases, one, other, want)?;
    }
    cases.show("set-ups inside and outside each bound")
}
