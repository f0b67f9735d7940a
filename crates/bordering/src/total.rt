//! A sum of lengths, as the program keeps it.
//! What is done with one is told in `totals`.
ghost use Rattle.std.specs.Prelude.{◌≤◌, ◌^◌};

/// A sum of lengths: whole pixels, and units beyond them. A million million units are the side of a pixel.
#[derive(Clone, Copy, Debug, PartialEq, Eq)]
pub struct Total {
    /// Whole pixels.
    pub pixels: u128,
    /// Units beyond them.
    pub units: u64,
    pub ghost small: { pixels ≤ 2 ^ 118 },
}
