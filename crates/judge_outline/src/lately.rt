//! The points that were taken last: whether a point is near one of them is told by their coordinates alone.
//! Most points of a patch are near one that was taken just before; the others are told in `patch_round`.
ghost use Rattle.std.specs.Prelude.{◌↔◌, ◌≤◌, ◌-ℤ◌, nat_abs, IsTrue, drop};
ghost use Rattle.shape_terms.specs.Adjacency.{Near};
ghost use Rattle.judge_outline.specs.Terms.{point_of};
ghost use Rattle.judge_outline.specs.Exposure.{IsNearTo};

use crate::listed::Listed;
use shape_space::P3;

// So many of the points that were taken last are asked.
const ASKED: u32 = 4;

// Whether two coordinates differ by at most 1.
fn are_close(x: i32, y: i32) -> bool
    ensures { IsTrue result ↔ nat_abs (x -ℤ y) ≤ 1 }
{
    x.abs_diff(y) <= 1
}

/// Whether two points are near.
pub(crate) fn are_near(p: P3, q: P3) -> bool
    ensures { IsTrue result ↔ Near (point_of p) (point_of q) }
{
    if p == q || !are_close(p.x, q.x) || !are_close(p.y, q.y) {
        return false;
    }
    are_close(p.z, q.z)
}

/// Whether a point is near one of the last points of those taken from a place on.
pub(crate) fn touches_last(taken: &Listed, start: u32, p: P3) -> bool
    ensures { IsTrue result → IsNearTo (drop start taken.now.points) (point_of p) }
{
    let count = taken.len();
    let first = start.max(count.saturating_sub(ASKED));
    for i in (first..count).rev() {
        if are_near(p, taken.point(i)) {
            return true;
        }
    }
    false
}
