ghost use Rattle.std.specs.Prelude.{◌<◌, ◌≤◌};

/// The widths of a formed table: of key numbers, of value numbers, and of slot numbers.
#[derive(Clone, Copy)]
pub struct Shape {
    pub k: u32,
    pub v: u32,
    pub b: u32,
    ghost narrow: { k ≤ 32 },
    ghost thin: { v ≤ 32 },
    ghost below: { b < k },
}
