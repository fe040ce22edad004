//! The edges of each coding, on both sides and in both directions, against numbers worked out by hand.
use coding::{
    Booking, BookingCoding, Card, CardCoding, Coding, Loan, LoanCoding, Night, NightCoding,
};
use std::io;
use tally::tally::Tally;

const MOST: u64 = 18_446_744_073_709_551_615;

fn nights(rt: &HostRuntime) -> io::Result<()> {
    let mut there = Tally::new();
    for (pitch, night, number) in [
        (0, 0, Some(0)),
        (3, 5, Some(3_077)),
        (0, 731, Some(731)),
        (0, 732, None),
        (1, 0, Some(1_024)),
        (999, 0, Some(1_022_976)),
        (999, 731, Some(1_023_707)),
        (999, 732, None),
        (1_000, 0, None),
        (MOST, 0, None),
        (0, MOST, None),
    ] {
        there.count(NightCoding.number(Night { pitch, night }) == number);
    }
    there.show(rt, "nights to numbers")?;
    let mut back = Tally::new();
    for (number, pitch, night) in [
        (0, 0, 0),
        (731, 0, 731),
        (1_024, 1, 0),
        (3_077, 3, 5),
        (1_022_976, 999, 0),
        (1_023_707, 999, 731),
    ] {
        back.count(NightCoding.item(number) == Some(Night { pitch, night }));
    }
    for number in [732, 1_023, 1_023_708, 1_024_000, 1_048_575, 1_048_576, MOST] {
        back.count(NightCoding.item(number).is_none());
    }
    back.count(NightCoding.width() == 20);
    back.show(rt, "numbers to nights")
}

/// Items that are numbers themselves: those that there are, those that there are not, and the width.
fn themselves<T: Copy + PartialEq, C: Coding<Item = T>, F: Fn(u64) -> T>(
    coding: &C,
    item: F,
    there: &[u64],
    none: &[u64],
    width: u32,
) -> Tally
    requires { F.IsAlwaysCallable item }
{
    let mut tally = Tally::new();
    for number in there {
        tally.count(coding.number(item(*number)) == Some(*number));
        tally.count(coding.item(*number) == Some(item(*number)));
    }
    for number in none {
        tally.count(coding.number(item(*number)).is_none());
        tally.count(coding.item(*number).is_none());
    }
    tally.count(coding.width() == width);
    tally
}

fn cards(rt: &HostRuntime) -> io::Result<()> {
    let there = [1, 2, 4_294_967_294, 4_294_967_295];
    let none = [0, 4_294_967_296, MOST];
    let tally = themselves(&CardCoding, |number| Card { number }, &there, &none, 32);
    tally.show(rt, "cards and numbers")
}

fn bookings(rt: &HostRuntime) -> io::Result<()> {
    let there = [1, 2, 9_999_998, 9_999_999];
    let none = [0, 10_000_000, 16_777_215, 16_777_216, MOST];
    let tally = themselves(
        &BookingCoding,
        |number| Booking { number },
        &there,
        &none,
        24,
    );
    tally.show(rt, "bookings and numbers")
}

fn loans(rt: &HostRuntime) -> io::Result<()> {
    let mut tally = Tally::new();
    for (pitch, last, paid, number) in [
        (0, 0, false, 0),
        (0, 0, true, 1),
        (0, 731, false, 1_462),
        (0, 731, true, 1_463),
        (3, 5, true, 6_155),
        (999, 731, false, 2_047_414),
        (999, 731, true, 2_047_415),
    ] {
        tally.count(LoanCoding.number(Loan { pitch, last, paid }) == Some(number));
        tally.count(LoanCoding.item(number) == Some(Loan { pitch, last, paid }));
    }
    for (pitch, last) in [(0, 732), (999, 732), (1_000, 0), (MOST, 0), (0, MOST)] {
        tally.count(
            LoanCoding
                .number(Loan {
                    pitch,
                    last,
                    paid: false,
                })
                .is_none(),
        );
        tally.count(
            LoanCoding
                .number(Loan {
                    pitch,
                    last,
                    paid: true,
                })
                .is_none(),
        );
    }
    for number in [1_464, 1_465, 2_047, 2_047_416, 2_097_151, 2_097_152, MOST] {
        tally.count(LoanCoding.item(number).is_none());
    }
    tally.count(LoanCoding.width() == 21);
    tally.show(rt, "loans and numbers")
}

/// Runs every case and prints the counts.
pub fn run(rt: &HostRuntime) -> io::Result<()> {
    nights(rt)?;
    cards(rt)?;
    bookings(rt)?;
    loans(rt)
}
