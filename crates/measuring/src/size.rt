//! How large the convex hull of the corners of an object is, from its rows.
//! A further number is one more field, here and in `HullSizes`.
ghost use Rattle.std.specs.Prelude.{◌≡◌, ◌≤◌, ◌*◌, ◌<◌, ◌^◌, ◌-ℤ◌, ◌≤ℤ◌, pos, unsigned_abs, length, IfOk};
ghost use Rattle.measure_terms.specs.Hulls.{vertex, end};
ghost use Rattle.measure_terms.specs.Polygons.{double_area, perimeter};
ghost use Rattle.measure_terms.specs.Rounding.{IsQuotientRoot};
ghost use Rattle.measuring.specs.Rows.{AreRows};
ghost use Rattle.measuring.specs.Corners.{corners, AreShort, IsConvex};
ghost use Rattle.measuring.specs.Sizes.{hull_told, HasSize, IsSizeOfRows};

use crate::area::double_area;
use crate::border::perimeter;
use crate::bounds::bounds;
use crate::corner::{end, vertex};
use crate::hull_round::hull;
use crate::object_row::Row;
use crate::quotient::quotient_root;
use crate::short::short_step;
use crate::width::{Width, least_width};
use shape_space::{NoMemory, P2};
use std::alloc::Global;

/// How large the convex hull of the corners of an object's pixels is.
#[derive(Clone, Copy, Debug, PartialEq, Eq)]
pub struct HullSize {
    /// Twice its area, in pixels.
    pub double_area: u64,
    /// The lengths of its sides in millionths, each rounded to nearest, added up.
    pub perimeter: u64,
    /// Its least width over its sides is this number by the root of `length`.
    pub across: u64,
    /// The square of the length of the first side across which it is so wide.
    pub length: u64,
    /// Its least width in thousandths, rounded to nearest and a half up.
    pub min_feret: u64,
    /// The step along that side to the right.
    pub dx: i32,
    /// The step along that side down.
    pub dy: i32,
}

// A number by the root of another, in thousandths.
fn by_root(across: u64, length: u64) -> u64
    requires across { across ≤ 2 ^ 35 }
    requires length { 0 < length }
    ensures { IsQuotientRoot (across * across) length result }
{
    quotient_root(across as u128 * across as u128, length) as u64
}

// The step along a side to the right.
fn step_right(round: &[P2], i: usize) -> i32
    requires within { i < length round.now }
    requires short { AreShort (corners round.now) }
    ensures { result ≡ (end (corners round.now) i).x -ℤ (vertex (corners round.now) i).x }
{
    let from = vertex(round, i);
    let to = end(round, i);
    short_step(from.x, to.x)
}

// The step along a side down.
fn step_down(round: &[P2], i: usize) -> i32
    requires within { i < length round.now }
    requires short { AreShort (corners round.now) }
    ensures { result ≡ (end (corners round.now) i).y -ℤ (vertex (corners round.now) i).y }
{
    let from = vertex(round, i);
    let to = end(round, i);
    short_step(from.y, to.y)
}

// The numbers of a polygon with its width across a side.
fn with_width(round: &[P2], width: Width) -> HullSize
    requires side { width.side < length round.now }
    requires few { length round.now ≤ 2 ^ 20 }
    requires short { AreShort (corners round.now) }
    requires left { pos 0 ≤ℤ double_area (corners round.now) }
    requires across { unsigned_abs width.across ≤ 2 ^ 35 }
    requires length { 0 < unsigned_abs width.length }
    ensures double_area { pos result.double_area ≡ double_area (corners round.now) }
    ensures perimeter { pos result.perimeter ≡ perimeter (corners round.now) }
    ensures across { result.across ≡ unsigned_abs width.across }
    ensures length { result.length ≡ unsigned_abs width.length }
    ensures min_feret { IsQuotientRoot (result.across * result.across) result.length
        result.min_feret }
    ensures dx { result.dx ≡ (end (corners round.now) width.side).x
        -ℤ (vertex (corners round.now) width.side).x }
    ensures dy { result.dy ≡ (end (corners round.now) width.side).y
        -ℤ (vertex (corners round.now) width.side).y }
{
    let across = width.across.unsigned_abs();
    let length = width.length.unsigned_abs();
    HullSize {
        double_area: double_area(round),
        perimeter: perimeter(round),
        across,
        length,
        min_feret: by_root(across, length),
        dx: step_right(round, width.side),
        dy: step_down(round, width.side),
    }
}

// How large a convex polygon is.
fn size_of_polygon(round: &[P2]) -> HullSize
    requires convex { IsConvex (corners round.now) }
    requires many { 2 ≤ length round.now }
    requires few { length round.now ≤ 2 ^ 20 }
    requires short { AreShort (corners round.now) }
    ensures { HasSize (corners round.now) (hull_told result) }
{
    let width = least_width(round);
    with_width(round, width)
}

/// How large the hull of the corners of the object with these rows is.
pub(crate) fn size_of_rows(alloc: Global, rows: &[Row]) -> Result<HullSize, NoMemory>
    requires some { 1 ≤ length rows.now }
    requires rows { AreRows rows.now }
    ensures { IfOk result (λ z. IsSizeOfRows rows.now (hull_told z)) }
{
    let points = bounds(alloc, rows)?;
    let round = hull(alloc, points.as_slice())?;
    Ok(size_of_polygon(round.as_slice()))
}
