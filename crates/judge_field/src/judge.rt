//! The judge: it goes through the object points in raster order, one for each line.
//! What a line says of its point is tested in `least`.
ghost use Rattle.std.specs.Prelude.{◌≡◌, ◌<◌, ◌^◌, ◌↔◌, [], ◌∷◌, ◌++◌, List, IsTrue, IfOk};
ghost use Rattle.std.specs.Bool.{OnTrue};
ghost use Rattle.shape_terms.specs.Points.{sides_of, box_count, raster_point};
ghost use Rattle.report_terms.specs.Lines as Terms;
ghost use Rattle.report_terms.specs.Sections.{NearClaim, NearsComplete};
ghost use Rattle.shape_report.specs.LineOf.{line_of};
ghost use Rattle.judge_field.specs.FieldState.{StandsFor, room_of};

use crate::least::is_least;
use crate::scans::Scans;
use shape_grid::Grid;
use shape_report::Line;
use shape_space::{NoMemory, Point, Sides};
use std::alloc::Global;
use std::marker::Model;

/// A judge of the `near` lines of a report of one picture, as they come.
///
/// It keeps the scans of the picture and no line. After `take` has answered false it says nothing
/// more, and is only dropped.
#[derive(Drop)]
pub struct FieldJudge<P: Point> {
    scans: Scans<P>,
    // The number of object points.
    objects: u32,
    // The raster number from which the next object point is looked for.
    next: u32,
    taken: u32,
}

impl<P: Point> Model for FieldJudge<P> {
    ghost use Rattle.judge_field.specs.FieldState.{FieldState, IsInStep};

    ghost Value = { FieldState };

    ghost view = { λ j. record { picture = j.scans; taken = j.taken } };

    ghost invariant = { λ j. IsInStep j.scans j.objects j.next j.taken };
}

// Whether a point is the one of the box that has a raster number. No division is made for it.
#[inline(always)]
fn has_number<P: Point>(sides: &Sides<P>, p: P, i: u32) -> bool
    requires { i < box_count (sides_of (P.coords sides.now.lengths)) }
    ensures { IsTrue result
        ↔ (P.coords p ≡ raster_point (sides_of (P.coords sides.now.lengths)) i) }
{
    sides.inside(p) && sides.raster(p) == i
}

impl<P: Point> FieldJudge<P> {
    /// A judge that has taken no line. It takes all its memory here.
    pub fn new(alloc: Global, grid: &Grid<P>) -> Result<FieldJudge<P>, NoMemory>
        ensures picture { IfOk result (λ j. j.picture ≡ grid.now) }
        ensures stands { IfOk result (λ j. StandsFor j []) }
        ensures room { IfOk result (λ j. room_of j < 2 ^ 32) }
    {
        Ok(FieldJudge {
            scans: Scans::new(alloc, grid)?,
            objects: grid.count(),
            next: 0,
            taken: 0,
        })
    }

    /// The least squared distances that the judge compares with.
    pub fn scans(&self) -> &Scans<P>
        ensures { result.now ≡ self.now.picture }
    {
        &self.scans
    }

    // Takes a `near` line of these points and this squared distance.
    fn take_near(&mut self, p: P, q: P, s: u64) -> bool
        ensures picture { self.new.picture ≡ self.old.picture }
        ensures answer { (lines : List Terms.Line) → StandsFor self.old lines
            → (IsTrue result ↔ NearClaim self.old.picture lines
            (Terms.Line.Near (P.coords p) (P.coords q) s)) }
        ensures stands { (lines : List Terms.Line) → StandsFor self.old lines
            → OnTrue result (StandsFor self.new
            (lines ++ Terms.Line.Near (P.coords p) (P.coords q) s ∷ [])) }
        ensures room { OnTrue result (room_of self.new < room_of self.old) }
    {
        let grid = self.scans.grid();
        let Some(i) = grid.first_from(self.next) else {
            return false;
        };
        if !has_number(&grid.sides(), p, i) {
            return false;
        }
        if !is_least(&self.scans, p, q, s) {
            return false;
        }
        self.next = i + 1;
        self.taken += 1;
        true
    }

    /// Takes the next line: whether it is a `near` line that is good after those that were taken.
    ///
    /// It names the next object point in raster order, and a nearest background point of the whole space with the
    /// square of their distance. A line of another kind is not good here.
    pub fn near(&mut self, line: &Line<P>) -> bool
        ensures picture { self.new.picture ≡ self.old.picture }
        ensures answer { (lines : List Terms.Line) → StandsFor self.old lines
            → (IsTrue result ↔ NearClaim self.old.picture lines (line_of P.coords line.now)) }
        ensures stands { (lines : List Terms.Line) → StandsFor self.old lines
            → OnTrue result (StandsFor self.new (lines ++ line_of P.coords line.now ∷ [])) }
        ensures room { OnTrue result (room_of self.new < room_of self.old) }
    {
        match *line {
            Line::Near { p, q, s } => self.take_near(p, q, s),
            _ => false,
        }
    }

    /// Whether each object point has its line.
    pub fn near_done(&self) -> bool
        ensures { (lines : List Terms.Line) → StandsFor self.now lines
            → (IsTrue result ↔ NearsComplete self.now.picture lines) }
    {
        self.taken == self.objects
    }
}
