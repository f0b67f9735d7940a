//! The patches that the points of a face fall into, each grown from the first point in raster order that is left.
//! How a patch grows belongs elsewhere.
ghost use Rattle.std.specs.Prelude.{◌≡◌, ◌<◌, IsTrue, IfOk, IfSome, MatchOption, Contains, map, length, ℕ, Some, slice_get};
ghost use Rattle.shape_terms.specs.Points.{Point as Place, sides_of, in_box};
ghost use Rattle.shape_terms.specs.Pictures.{at, object_points};
ghost use Rattle.shape_terms.specs.Steps.{Before};
ghost use Rattle.shape_plane.specs.Parting.{IsNextPatch, IsEmpty};
ghost use Rattle.shape_plane.specs.Trials.{Refusal};

use crate::grow::grow;
use crate::patch::Patch;
use crate::refusals::Refusals;
use shape_adj::{NearNumbers, Pairing};
use shape_grid::Grid;
use shape_space::{NoMemory, Point};
use std::alloc::Global;
use std::marker::Model;

// Takes the marks of refused points away again.
fn unmark<P: Point>(tried: &mut Grid<P>, refused: &Refusals<P>)
    requires marked { (q : Place) → IsTrue (at tried.old q)
        → Contains (map (λ (r : Refusal). r.point) refused.now) q }
    requires inside { (k : ℕ) (r : Refusal) → slice_get refused.now k ≡ Some r
        → IsTrue (in_box tried.old.sides r.point) }
    ensures none { IsEmpty tried.new }
    ensures sides { tried.new.sides ≡ tried.old.sides }
{
    tried.is_picture();
    for i in 0..refused.len() {
        tried.clear(refused.get(i).point);
    }
}

// Grows a patch from a point that is left, before which none is.
fn patch_from<P: Pairing>(
    alloc: Global,
    axis: usize,
    p: P,
    left: &mut Grid<P>,
    tried: &mut Grid<P>,
    near: &NearNumbers<P>,
) -> Result<Patch<P>, NoMemory>
    requires axis { axis < P.DIM }
    requires left { IsTrue (at left.old (P.coords p)) }
    requires near { sides_of (P.coords near.now.sides.lengths) ≡ left.old.sides }
    requires sides { tried.old.sides ≡ left.old.sides }
    requires none { IsEmpty tried.old }
    requires least { (q : Place) → IsTrue (at left.old q) → Before q (P.coords p) → ⊥ }
    ensures sides { IfOk result (λ _. tried.new.sides ≡ left.new.sides) }
    ensures none { IfOk result (λ _. IsEmpty tried.new) }
    ensures cleared { IfOk result (λ _. IsTrue (at left.new (P.coords p)) → ⊥) }
    ensures axis { IfOk result (λ x. x.axis ≡ axis) }
    ensures next { IfOk result (λ x. IsNextPatch P.DIM axis left.old left.new x.found) }
{
    left.is_picture();
    let mut grown = grow(alloc, axis, p, left, tried, near)?;
    unmark(tried, &grown.refused);
    grown.refused.sort();
    Ok(Patch::new(grown.growing, grown.refused))
}

/// The exposed points of a face, of which patches are taken one after another. Contracts see the axis of the face and the points that
/// no patch has yet.
#[derive(Drop)]
pub struct Parting<P: Pairing> {
    axis: usize,
    left: Grid<P>,
    tried: Grid<P>,
    near: NearNumbers<P>,
    next: u32,
    failed: bool,
}

impl<P: Pairing> Model for Parting<P> {
    ghost use Rattle.std.specs.Prelude.{◌≡◌, false};
    ghost use Rattle.shape_terms.specs.Points.{sides_of};
    ghost use Rattle.shape_plane.specs.Parting.{Rest, IsReady};

    ghost Value = { Rest };

    ghost view = { λ s. record { axis = s.axis; left = s.left } };

    ghost invariant = { λ s. s.failed ≡ false → IsReady P.DIM s.axis s.left s.tried
        (sides_of (P.coords s.near.sides.lengths)) s.next };
}

impl<P: Pairing> Parting<P> {
    /// The points of a grid, of which no patch was taken yet.
    pub(crate) fn new(alloc: Global, axis: usize, left: Grid<P>) -> Result<Parting<P>, NoMemory>
        requires axis { axis < P.DIM }
        ensures axis { IfOk result (λ x. x.axis ≡ axis) }
        ensures left { IfOk result (λ x. x.left ≡ left) }
    {
        let sides = left.sides();
        let tried = Grid::new(alloc, sides)?;
        let near = NearNumbers::new(alloc, sides)?;
        Ok(Parting {
            axis,
            left,
            tried,
            near,
            next: 0,
            failed: false,
        })
    }

    /// The number of points that are left.
    pub fn count(&self) -> u32
        ensures { result ≡ length (object_points self.now.left) }
    {
        self.left.count()
    }

    /// Takes the next patch away, which begins with the first point left in raster order; none where no point is left.
    ///
    /// Once there was no memory, each later call says so again.
    pub fn next_patch(&mut self, alloc: Global) -> Result<Option<Patch<P>>, NoMemory>
        ensures axis { self.new.axis ≡ self.old.axis }
        ensures of_axis { IfOk result (λ x. IfSome x (λ patch. patch.axis ≡ self.old.axis)) }
        ensures next { IfOk result (λ x. MatchOption x
            (IsEmpty self.old.left × (self.new ≡ self.old))
            (λ patch. IsNextPatch P.DIM self.old.axis self.old.left self.new.left patch.found)) }
    {
        if self.failed {
            return Err(NoMemory);
        }
        let Some(i) = self.left.first_from(self.next) else {
            return Ok(None);
        };
        self.failed = true;
        let p = self.left.sides().unraster(i);
        let patch = patch_from(
            alloc,
            self.axis,
            p,
            &mut self.left,
            &mut self.tried,
            &self.near,
        )?;
        self.next = i + 1;
        self.failed = false;
        Ok(Some(patch))
    }
}
