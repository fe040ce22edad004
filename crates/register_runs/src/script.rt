//! Calls that look random: few keys, so that groups fill, and at times what is to be refused.
use crate::items::Sort;
use crate::mirror::Mirror;
use dictionary::Run;
use expected::noise::Noise;
use model::call::Call;

/// Of a sort of items: numbers that are used much, and numbers at the edges, some of them no item's.
fn points(sort: Sort) -> ([u64; 6], [u64; 6]) {
    match sort {
        Sort::Nights => (
            [0, 1024, 327_680, 524_288, 717_500, 1_022_976],
            [732, 1023, 1_023_707, 1_024_000, 1_048_576, u64::MAX],
        ),
        Sort::Cards => (
            [
                1,
                5000,
                1 << 31,
                3_000_000_000,
                4_000_000_000,
                4_294_967_270,
            ],
            [
                0,
                4_294_967_295,
                4_294_967_296,
                4_294_967_290,
                1 << 63,
                u64::MAX,
            ],
        ),
        Sort::Bookings => (
            [1, 2, 77, 5_592_405, 8_388_608, 9_999_999],
            [0, 10_000_000, 16_777_215, 16_777_216, 1 << 63, u64::MAX],
        ),
        Sort::Loans => (
            [0, 1, 1463, 1_048_576, 2_046_000, 2_047_415],
            [1464, 2047, 2_047_416, 2_048_000, 2_097_152, u64::MAX],
        ),
    }
}

/// One of the numbers that are used much, at times one at an edge.
fn some_number(noise: &mut Noise, sort: Sort) -> u64 {
    let (usual, edge) = points(sort);
    let i = (noise.next() % 6) as usize;
    if noise.below(30) == 0 {
        edge[i]
    } else {
        usual[i]
    }
}

/// A key number, its run's length, and a value number.
fn some_run(noise: &mut Noise, mirror: &Mirror) -> Run {
    let mut first = some_number(noise, mirror.parts.keys);
    if noise.below(25) != 0 {
        first = first.saturating_add(noise.below(44));
    }
    let value = some_number(noise, mirror.parts.values);
    let length = match noise.below(60) {
        0 => 0,
        1 => 65,
        2 => u64::MAX,
        3 => 64,
        4 | 5 | 6 | 7 => noise.below(24),
        _ => noise.below(6).saturating_add(1),
    };
    Run {
        first,
        length,
        value,
    }
}

/// A run that begins at a key that is held, under its value; any run where none is.
fn held_run(noise: &mut Noise, mirror: &Mirror) -> Run {
    let i = noise.below(mirror.list.len() as u64);
    match mirror.list.get(i as usize) {
        Some(e) => Run {
            first: e.key,
            length: noise.below(4).max(1),
            value: e.value,
        },
        None => some_run(noise, mirror),
    }
}

/// A b that fits no table while the list is closed, any b after that.
fn some_opening(noise: &mut Noise, mirror: &Mirror) -> u32 {
    let b = (noise.next() % 40) as u32;
    if mirror.opened.is_some() { b } else { b + 21 }
}

/// The call that takes a run.
fn take(run: Run) -> Call<u64, u64> {
    Call::Take(run.first, run.length, run.value)
}

/// The call that cancels a run.
fn cancel(run: Run) -> Call<u64, u64> {
    Call::Cancel(run.first, run.length, run.value)
}

/// Whether more is taken than cancelled, or less.
#[derive(Clone, Copy, PartialEq, Eq, Debug)]
pub enum Tide {
    Rising,
    Falling,
}

/// Any of the seven calls, but an enlargement only while the list is closed.
pub fn some_call(noise: &mut Noise, mirror: &Mirror, tide: Tide) -> Call<u64, u64> {
    let run = some_run(noise, mirror);
    let held = held_run(noise, mirror);
    match noise.below(24) {
        0 | 1 | 2 | 3 | 4 | 5 | 6 | 7 => match tide {
            Tide::Rising => take(run),
            Tide::Falling => cancel(held),
        },
        8 => take(run),
        9 | 10 | 11 => cancel(held),
        12 => cancel(run),
        13 => cancel(Run {
            value: run.value,
            ..held
        }),
        14 | 15 => Call::Find(run.first),
        16 => Call::Find(held.first),
        17 | 18 | 19 => Call::At(noise.below((mirror.list.len() as u64).saturating_add(3))),
        20 => Call::At(run.length),
        21 => Call::Open(some_opening(noise, mirror)),
        _ if mirror.opened.is_some() => Call::Count,
        _ => Call::Enlarge,
    }
}
