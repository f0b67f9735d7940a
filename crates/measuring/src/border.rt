//! The length of the border of a polygon, by the sum over its sides, each rounded for itself.
//! Corners of a box and a bound of their number keep the sum small.
ghost use Rattle.std.specs.Prelude.{◌≡◌, ◌≤◌, ◌^◌, pos, length};
ghost use Rattle.measure_terms.specs.Polygons.{side_length, perimeter};
ghost use Rattle.measuring.specs.Corners.{corner, corners, IsShort, AreShort};

use crate::corner::{end, vertex};
use crate::quotient::quotient_root;
use crate::short::short_length;
use shape_space::P2;

// The length of a side in millionths, rounded to nearest.
fn side_length(p: P2, q: P2) -> u64
    requires p { IsShort (corner p) }
    requires q { IsShort (corner q) }
    ensures value { pos result ≡ side_length (corner p) (corner q) }
    ensures small { result ≤ 2 ^ 40 }
{
    quotient_root(1_000_000 * short_length(p, q).unsigned_abs() as u128, 1) as u64
}

/// The lengths of the sides of a polygon, each rounded to nearest in millionths, added up.
pub(crate) fn perimeter(round: &[P2]) -> u64
    requires few { length round.now ≤ 2 ^ 20 }
    requires short { AreShort (corners round.now) }
    ensures { pos result ≡ perimeter (corners round.now) }
{
    let mut sum = 0;
    for i in 0..round.len() {
        sum += side_length(vertex(round, i), end(round, i));
    }
    sum
}
