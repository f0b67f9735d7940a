//! Turns of runs of flat points, which no straight run has.
//! Which runs are straight belongs elsewhere.
ghost use Rattle.std.specs.Prelude.{◌≡◌, ◌<◌, ◌+◌, ◌≤◌, ◌↔◌, ◌⊎◌, ◌-ℤ◌, IsTrue, length, map, pos, negsuc};
ghost use Rattle.shape_terms.specs.Points.{coordinate};
ghost use Rattle.shape_terms.specs.Turns.{IsTurn, change_at, other_axis};
ghost use Rattle.shape_terms.specs.Refutations.{point_at};
ghost use Rattle.shape_refute.specs.Terms.{flat_point};

use shape_space::{P2, Point};

/// Two places of a run from which the other coordinate changes to the next place, not by 1 at both and not by -1 at both.
#[derive(Clone, Copy, Debug, PartialEq, Eq)]
pub struct Turn {
    /// The first place, counted from 0.
    pub i: u32,
    /// The second place, which may be the first.
    pub j: u32,
}

// How much a coordinate changes.
fn gap(from: i32, to: i32) -> i64
    ensures { result ≡ to -ℤ from }
{
    to as i64 - from as i64
}

// The other coordinate of a place of the run.
#[inline]
fn other_at(points: &[P2], axis: usize, i: usize) -> i32
    requires axis { axis < 2 }
    requires place { i < length points.now }
    ensures { result ≡ coordinate (point_at (map flat_point points.now) i) (other_axis axis) }
{
    points[i].coord(1 - axis)
}

// How much the other coordinate changes from a place of the run to the next.
fn change(points: &[P2], axis: usize, i: usize) -> i64
    requires axis { axis < 2 }
    requires place { i + 1 < length points.now }
    ensures { result ≡ change_at (map flat_point points.now) axis i }
{
    gap(other_at(points, axis, i), other_at(points, axis, i + 1))
}

// Whether two changes are both 1, or both -1.
fn are_one_step(first: i64, second: i64) -> bool
    ensures { IsTrue result ↔ ((first ≡ pos 1) × (second ≡ pos 1))
        ⊎ ((first ≡ negsuc 0) × (second ≡ negsuc 0)) }
{
    first == second && (first == 1 || first == -1)
}

/// Whether the two places are a turn of the run for the axis.
///
/// A place that has no next one in the run makes none.
pub fn turns(points: &[P2], axis: usize, t: &Turn) -> bool
    requires { axis < 2 }
    ensures { IsTrue result ↔ IsTurn axis (map flat_point points.now) t.now.i t.now.j }
{
    let (i, j) = (t.i as usize, t.j as usize);
    if i + 1 >= points.len() || j + 1 >= points.len() {
        return false;
    }
    !are_one_step(change(points, axis, i), change(points, axis, j))
}
