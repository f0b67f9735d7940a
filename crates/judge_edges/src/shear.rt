//! Sheared points: a run that goes by two signs becomes one that goes to the right by 1 at each place.
//! Standard lines of the run are naive lines of the axis y there.
ghost use Rattle.std.specs.Prelude.{◌≡◌, ◌≤◌, ◌*◌, ◌*ℤ◌, ◌+ℤ◌, ◌-ℤ◌, unsigned_abs};
ghost use Rattle.shape_terms.specs.Limits.{most_flat, line_coordinate};
ghost use Rattle.edge_terms.specs.Corners.{IsSign, IsCorner};
ghost use Rattle.edge_terms.specs.EdgeEvidence.{from_origin};
ghost use Rattle.shape_crack.specs.Terms.{point_of};
ghost use Rattle.shape_refute.specs.Terms.{flat_point};
ghost use Rattle.judge_edges.specs.Ways.{sign_of};

use crate::ways::{Ways, sign};
use shape_space::P2;

// A difference of two coordinates, by a sign.
fn signed(sign: i8, from: i32, to: i32) -> i32
    requires sign { IsSign sign }
    requires from_small { unsigned_abs from ≤ most_flat }
    requires to_small { unsigned_abs to ≤ most_flat }
    ensures value { result ≡ sign *ℤ (to -ℤ from) }
    ensures small { unsigned_abs result ≤ 2 * most_flat }
{
    if sign == 1 { to - from } else { from - to }
}

// A sum of two such differences.
fn sum(a: i32, b: i32) -> i32
    requires a_small { unsigned_abs a ≤ 2 * most_flat }
    requires b_small { unsigned_abs b ≤ 2 * most_flat }
    ensures value { result ≡ a +ℤ b }
    ensures small { unsigned_abs result ≤ 4 * most_flat }
{
    a + b
}

/// The sheared point of a corner, less that of the first one.
pub fn sheared(ways: Ways, first: P2, p: P2) -> P2
    requires across { IsSign (sign_of ways.across) }
    requires down { IsSign (sign_of ways.down) }
    requires first { IsCorner (point_of first) }
    requires here { IsCorner (point_of p) }
    ensures value { flat_point result
        ≡ from_origin (sign_of ways.across) (sign_of ways.down) (point_of first) (point_of p) }
    ensures x_small { unsigned_abs result.x ≤ line_coordinate }
    ensures y_small { unsigned_abs result.y ≤ line_coordinate }
{
    let x = signed(sign(ways.across), first.x, p.x);
    let y = signed(sign(ways.down), first.y, p.y);
    P2 { x: sum(x, y), y }
}
