//! The points of a patch as a grid: it is asked which near neighbours of a point are of the patch, all at once.
//! The grid has exactly the points that were taken from a place on.
ghost use Rattle.std.specs.Prelude.{◌≡◌, ◌<◌, [], ◌∷◌, ◌++◌, List, IsTrue, Contains, drop};
ghost use Rattle.shape_terms.specs.Points.{Point as Where, in_box};
ghost use Rattle.judge_outline.specs.Terms.{point_of};
ghost use Rattle.judge_outline.specs.Exposure.{AreMarked};

use crate::listed::Listed;
use shape_grid::Grid;
use shape_space::P3;

/// Marks one more point.
pub(crate) fn mark(recent: &mut Grid<P3>, p: P3)
    requires { IsTrue (in_box recent.old.sides (point_of p)) }
    ensures box_ { recent.new.sides ≡ recent.old.sides }
    ensures marked { (points : List Where) → AreMarked points recent.old
        → AreMarked (points ++ point_of p ∷ []) recent.new }
{
    recent.is_picture();
    recent.set(p);
}

/// Takes the marks from all points that were taken from a place on.
pub(crate) fn unmark(taken: &Listed, start: u32, recent: &mut Grid<P3>)
    requires box_ { recent.old.sides ≡ taken.now.sides }
    requires marked { AreMarked (drop start taken.now.points) recent.old }
    ensures box_ { recent.new.sides ≡ taken.now.sides }
    ensures none { AreMarked [] recent.new }
{
    for i in start..taken.len() {
        recent.clear(taken.point(i));
    }
}
