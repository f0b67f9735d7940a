//! Twice the area of a polygon, by the sum over its sides.
//! Corners of a box and a bound of their number keep the sum small.
ghost use Rattle.std.specs.Prelude.{◌≡◌, ◌≤◌, ◌^◌, ◌-ℤ◌, ◌*ℤ◌, ◌≤ℤ◌, pos, unsigned_abs, length};
ghost use Rattle.measure_terms.specs.Polygons.{side_area, double_area};
ghost use Rattle.measuring.specs.Corners.{corner, corners, IsShort, AreShort};

use crate::corner::{end, vertex};
use shape_space::P2;

// A product of two coordinates.
fn product(a: i32, b: i32) -> i64
    requires a_small { unsigned_abs a ≤ 2 ^ 16 }
    requires b_small { unsigned_abs b ≤ 2 ^ 16 }
    ensures value { result ≡ a *ℤ b }
    ensures small { unsigned_abs result ≤ 2 ^ 32 }
{
    a as i64 * b as i64
}

// A difference of two products.
fn difference(a: i64, b: i64) -> i64
    requires a_small { unsigned_abs a ≤ 2 ^ 32 }
    requires b_small { unsigned_abs b ≤ 2 ^ 32 }
    ensures value { result ≡ a -ℤ b }
    ensures small { unsigned_abs result ≤ 2 ^ 33 }
{
    a - b
}

// Twice the area of the triangle of the origin and a side.
fn side_area(p: P2, q: P2) -> i64
    requires p { IsShort (corner p) }
    requires q { IsShort (corner q) }
    ensures value { result ≡ side_area (corner p) (corner q) }
    ensures small { unsigned_abs result ≤ 2 ^ 33 }
{
    difference(product(p.x, q.y), product(p.y, q.x))
}

/// Twice the area of a polygon that does not turn right on the whole.
pub(crate) fn double_area(round: &[P2]) -> u64
    requires few { length round.now ≤ 2 ^ 20 }
    requires short { AreShort (corners round.now) }
    requires left { pos 0 ≤ℤ double_area (corners round.now) }
    ensures { pos result ≡ double_area (corners round.now) }
{
    let mut area = 0;
    for i in 0..round.len() {
        area += side_area(vertex(round, i), end(round, i));
    }
    area as u64
}
