//! The judge: it goes through balls in the raster order of their centres, and keeps two marks for each point.
//! How the points of a ball are gone through stands in `shape_window`.
ghost use Rattle.std.specs.Prelude.{◌≡◌, ◌+◌, ◌<◌, ◌≤◌, ◌^◌, ◌↔◌, ◌&&◌, not, [], ◌∷◌, ◌++◌, List, length, IsTrue, IfOk};
ghost use Rattle.std.specs.Bool.{OnTrue};
ghost use Rattle.shape_terms.specs.Points.{box_count, raster_point};
ghost use Rattle.shape_terms.specs.Pictures.{Picture, at};
ghost use Rattle.ball_terms.specs.Balls.{Ball, ball_by, BallClaim, CoverObject, AreUnion};
ghost use Rattle.ball_terms.specs.Reports.{HeadingClaim};
ghost use Rattle.shape_window.specs.Marks.{is_marked};
ghost use Rattle.judge_balls.specs.Tests.{PassesTests, IsFreeIn, AllMarked};

use judge_field::{Scans, is_least};
use shape_grid::{Bits, Grid};
use shape_space::{NoMemory, Point, squared_distance};
use shape_window::{holds_mark, mark_ball};
use std::alloc::Global;

/// A judge of the balls of one picture, as they come.
///
/// It keeps the scans of the picture, two marks for each point, and no ball. After `ball` has
/// answered false it says nothing more, and is only dropped.
#[derive(Drop)]
pub struct BallJudge<P: Point> {
    scans: Scans<P>,
    // Whether each point of the box is in a ball that was taken.
    covered: Bits,
    // Whether it is the own point of one.
    own: Bits,
    // The raster number from which the next centre may come.
    next: u32,
    ghost covered_filled: { length covered ≡ box_count scans.sides },
    ghost own_filled: { length own ≡ box_count scans.sides },
}

// Whether two points have the same coordinates.
fn is_same<P: Point>(p: P, q: P) -> bool
    ensures { IsTrue result ↔ (P.coords p ≡ P.coords q) }
{
    p == q
}

impl<P: Point> BallJudge<P> {
    ghost use Rattle.shape_terms.specs.Limits.{most_points};
    ghost use Rattle.judge_balls.specs.Standing.{StandsFor, room_of};

    /// A judge that has taken no ball. It takes all its memory here.
    pub fn new(alloc: Global, grid: &Grid<P>) -> Result<BallJudge<P>, NoMemory>
        ensures stands { IfOk result (StandsFor grid.now []) }
        ensures room { IfOk result (λ j. room_of j ≤ most_points) }
    {
        grid.is_picture();
        let count = grid.sides().count() as usize;
        let scans = Scans::new(alloc, grid)?;
        let covered = Bits::new(alloc, count)?;
        let own = Bits::new(alloc, count)?;
        Ok(BallJudge {
            scans,
            covered,
            own,
            next: 0,
        })
    }

    // Whether a report of this picture may begin with these sides and this number of balls.
    fn passes_heading(&self, sides: P, number: u32) -> bool
        ensures { IsTrue result ↔ HeadingClaim self.now.scans (P.coords sides) number }
    {
        let grid = self.scans.grid();
        if !is_same(sides, grid.sides().lengths) {
            return false;
        }
        number <= grid.count()
    }

    /// Whether a report of the picture may begin with these sides and this number of balls: the sides are those of the
    /// picture, and it has at least as many object points.
    pub fn begins(&self, sides: P, number: u32) -> bool
        ensures { (X : Picture) (balls : List Ball) → StandsFor X balls self.now
            → (IsTrue result ↔ HeadingClaim X (P.coords sides) number) }
    {
        self.passes_heading(sides, number)
    }

    // Whether the own point of a ball is a point of it that is in no ball that was taken.
    fn has_own(&self, centre: P, s: u64, own: P) -> bool
        requires { IsTrue (at self.now.scans (P.coords centre)) }
        ensures { IsTrue result
            ↔ IsFreeIn self.now.scans self.now.covered (P.coords centre) s (P.coords own) }
    {
        let grid = self.scans.grid();
        let sides = grid.sides();
        if !grid.has(own) {
            return false;
        }
        squared_distance(centre, own) < s && !self.covered.get(sides.raster(own) as usize)
    }

    // Whether a ball passes the tests after the balls that were taken.
    fn passes(&self, centre: P, near: P, s: u64, own: P) -> bool
        ensures { IsTrue result
            ↔ PassesTests self.now.scans self.now.covered self.now.own self.now.next
            (ball_by (P.coords centre) (P.coords near) s (P.coords own)) }
    {
        let grid = self.scans.grid();
        if !grid.has(centre) {
            return false;
        }
        let sides = grid.sides();
        if sides.raster(centre) < self.next {
            return false;
        }
        if !is_least(&self.scans, centre, near, s) {
            return false;
        }
        if !self.has_own(centre, s, own) {
            return false;
        }
        !holds_mark(&self.own, &sides, centre, s)
    }

    /// Takes the next ball: whether its claim is true after those that were taken.
    ///
    /// Its centre is an object point after the earlier centres in raster order, its distance is least, and its own point
    /// is in no earlier ball, nor any earlier own point in it.
    pub fn ball(&mut self, centre: P, near: P, s: u64, own: P) -> bool
        ensures answer { (X : Picture) (balls : List Ball) → StandsFor X balls self.old
            → (IsTrue result ↔ BallClaim X balls
            (ball_by (P.coords centre) (P.coords near) s (P.coords own))) }
        ensures stands { (X : Picture) (balls : List Ball) → StandsFor X balls self.old
            → OnTrue result (StandsFor X
            (balls ++ ball_by (P.coords centre) (P.coords near) s (P.coords own) ∷ []) self.new) }
        ensures room { OnTrue result (room_of self.new < room_of self.old) }
    {
        if !self.passes(centre, near, s, own) {
            return false;
        }
        let sides = self.scans.grid().sides();
        mark_ball(&mut self.covered, &sides, centre, s);
        self.own.set(sides.raster(own) as usize);
        self.next = sides.raster(centre) + 1;
        true
    }

    // Whether the point with a raster number is an object point in no ball that was taken.
    fn is_open(&self, i: u32) -> bool
        requires { i < box_count self.now.scans.sides }
        ensures { result ≡ (at self.now.scans (raster_point self.now.scans.sides i)
            && not (is_marked self.now.covered i)) }
    {
        let grid = self.scans.grid();
        grid.has(grid.sides().unraster(i)) && !self.covered.get(i as usize)
    }

    // Whether each object point is in a ball that was taken.
    fn is_covered(&self) -> bool
        ensures { IsTrue result ↔ AllMarked self.now.scans self.now.covered }
    {
        for i in 0..self.scans.grid().sides().count() {
            if self.is_open(i) {
                return false;
            }
        }
        true
    }

    /// Whether each object point is in a ball that was taken. Then the object is exactly their union, and none of
    /// them is needless.
    pub fn done(&self) -> bool
        ensures answer { (X : Picture) (balls : List Ball) → StandsFor X balls self.now
            → (IsTrue result ↔ CoverObject X balls) }
        ensures union { (X : Picture) (balls : List Ball) → StandsFor X balls self.now
            → OnTrue result (AreUnion X balls) }
    {
        self.is_covered()
    }
}
