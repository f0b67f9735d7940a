//! A border of an object: where its contour begins, and its length.
//! How long it is is found in `length`.
ghost use Rattle.std.specs.Prelude.{◌≤◌, ◌^◌};

use shape_space::P2;

/// Where a contour begins.
#[derive(Clone, Copy, Debug, PartialEq, Eq)]
pub struct Start {
    /// The pixel of its first crack.
    pub point: P2,
    /// The side of that crack, 0 to 3: up, right, down, left.
    pub side: u8,
}

/// A border of an object.
#[derive(Clone, Copy, Debug, PartialEq, Eq)]
pub struct Border {
    /// Where its contour begins.
    pub start: Start,
    /// The length of the line through the middles of its pixels, in units: a million million of them are the side of a pixel.
    pub length: u128,
    pub ghost small: { length ≤ 2 ^ 99 },
}
