//! What the calls of a segment ask of a point, so that a case may make them.
//! Another test of the same is a change here alone.
ghost use Rattle.std.specs.Prelude.{IsTrue, ◌≤◌, ◌-ℤ◌, nat_abs};
ghost use Rattle.shape_terms.specs.Steps.{AreClose};
ghost use Rattle.shape_refute.specs.Terms.{flat_point};
ghost use Rattle.shape_refute.specs.PairTerms.{IsSmall};

use shape_space::{MOST_COORDINATE, P2};

/// Whether the coordinates are small.
pub(crate) fn is_small(p: P2) -> bool
    ensures { IsTrue result → IsSmall p }
{
    p.x.unsigned_abs() <= MOST_COORDINATE && p.y.unsigned_abs() <= MOST_COORDINATE
}

// Whether two numbers are at most 1 apart.
fn is_beside(a: i32, b: i32) -> bool
    ensures { IsTrue result → nat_abs (a -ℤ b) ≤ 1 }
{
    (a as i64 - b as i64).unsigned_abs() <= 1
}

/// Whether two points are close.
#[tactic(auto, using(crate::proofs::ClosePoints::close_flat))]
pub(crate) fn is_close(p: P2, q: P2) -> bool
    ensures { IsTrue result → AreClose (flat_point p) (flat_point q) }
{
    if !is_beside(p.x, q.x) {
        return false;
    }
    is_beside(p.y, q.y)
}
