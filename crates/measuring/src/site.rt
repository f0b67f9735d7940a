//! Points of a box as a search keeps them: by raster number and coordinates, and how far two of them are apart.
//! The sizes for which nothing overflows stand here.
ghost use Rattle.std.specs.Prelude.{◌≡◌, ◌<◌, ◌≤◌, ◌^◌};
ghost use Rattle.shape_terms.specs.Points.{sides_of, box_count};
ghost use Rattle.measure_terms.specs.Spacing.{IsSide, IsSpacing};
ghost use Rattle.measuring.specs.Spaced.{spacing_told};
ghost use Rattle.measuring.specs.Sites.{IsSiteOf, squared_length, square_between};

use crate::fact::place;
use crate::spacing::Spacing;
use shape_space::{Point, Sides};

/// A point of a box.
#[derive(Clone, Copy, Debug, PartialEq, Eq)]
pub struct Site {
    /// Its raster number.
    pub number: u32,
    /// How far it lies to the right.
    pub x: u16,
    /// How far it lies down.
    pub y: u16,
    /// In which layer it lies, and 0 in the plane.
    pub z: u16,
}

/// The point with a raster number.
pub(crate) fn site_of<P: Point>(sides: Sides<P>, i: u32) -> Site
    requires { i < box_count (sides_of (P.coords sides.lengths)) }
    ensures number { result.number ≡ i }
    ensures site { IsSiteOf (sides_of (P.coords sides.lengths)) result }
{
    let p = sides.unraster(i);
    Site {
        number: i,
        x: place(sides, p, 0) as u16,
        y: place(sides, p, 1) as u16,
        z: place(sides, p, 2) as u16,
    }
}

/// The square of how far two coordinates are apart, where a step along their axis is so long.
pub(crate) fn squared_length(side: u16, a: u16, b: u16) -> u64
    requires { IsSide side }
    ensures value { result ≡ squared_length side a b }
    ensures small { result ≤ 2 ^ 52 }
{
    let length = side as u64 * a.abs_diff(b) as u64;
    length * length
}

/// The squared distance of two points.
pub(crate) fn square_between(spacing: Spacing, p: Site, q: Site) -> u64
    requires { IsSpacing (spacing_told spacing) }
    ensures { result ≡ square_between (spacing_told spacing) p q }
{
    let x = squared_length(spacing.x, p.x, q.x);
    let y = squared_length(spacing.y, p.y, q.y);
    let z = squared_length(spacing.z, p.z, q.z);
    x + y + z
}
