//! The squared distances of the points of a picture to the background, kept to compare with.
//! How they are found belongs to `shape_dist`.
ghost use Rattle.std.specs.Prelude.{◌≡◌, IsTrue, IfOk};
ghost use Rattle.shape_terms.specs.Points.{Point as Place};
ghost use Rattle.shape_terms.specs.Pictures.{at};
ghost use Rattle.shape_terms.specs.Places.{framed_number};
ghost use Rattle.judge_field.specs.FieldState.{IsLeastSquare};

use shape_cells::Cells;
use shape_dist::cells_of;
use shape_grid::Grid;
use shape_space::{NoMemory, Point};
use std::alloc::Global;
use std::marker::Model;

/// The squared distance of each object point of a picture to its nearest background points, found beforehand.
///
/// It keeps the picture, and a number for each object point, or for each point of the framed box where many are object points.
#[derive(Drop)]
pub struct Scans<P: Point> {
    grid: Grid<P>,
    squares: Cells<u32>,
}

impl<P: Point> Model for Scans<P> {
    ghost use Rattle.std.specs.Prelude.{◌≡◌, length};
    ghost use Rattle.shape_terms.specs.Points.{box_count};
    ghost use Rattle.shape_terms.specs.Pictures.{Picture};
    ghost use Rattle.shape_terms.specs.FramedBox.{framed_sides};
    ghost use Rattle.shape_dist.specs.Keepings.{square_keeping};
    ghost use Rattle.shape_dist.specs.Spreads.{AreNearestOn};

    ghost Value = { Picture };

    ghost view = { λ s. s.grid };

    ghost invariant = { λ s. (length s.squares.values ≡ box_count (framed_sides s.grid.sides))
        × AreNearestOn square_keeping s.grid (box_count (framed_sides s.grid.sides))
        s.squares.values };
}

impl<P: Point> Scans<P> {
    /// The squares of a picture. It takes all its memory here.
    pub fn new(alloc: Global, grid: &Grid<P>) -> Result<Scans<P>, NoMemory>
        ensures { IfOk result (λ s. s ≡ grid.now) }
    {
        let squares = cells_of::<P, u32>(alloc, grid)?;
        let grid = grid.copy(alloc)?;
        Ok(Scans { grid, squares })
    }

    /// The picture.
    pub fn grid(&self) -> &Grid<P>
        ensures { result.now ≡ self.now }
    {
        &self.grid
    }

    /// The squared distance of the object point that has a number in the framed box.
    #[inline(always)]
    pub fn least_at(&self, place: u32) -> u32
        requires { (p : Place) × IsTrue (at self.now p) × (place ≡ framed_number self.now.sides p) }
        ensures { (p : Place) → IsTrue (at self.now p) → place ≡ framed_number self.now.sides p
            → IsLeastSquare self.now p result }
    {
        self.squares.get(place)
    }

    /// The squared distance of an object point and a nearest background point of the whole space.
    #[inline(always)]
    pub fn least(&self, p: P) -> u32
        requires { IsTrue (at self.now (P.coords p)) }
        ensures { IsLeastSquare self.now (P.coords p) result }
    {
        let sides = self.grid.sides();
        self.least_at(sides.framed_number(p))
    }
}
