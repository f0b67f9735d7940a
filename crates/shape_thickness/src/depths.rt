//! How deep the painted places lay when they were last looked at: a ball within that depth has nothing left to paint.
//! When they are looked at again changes nothing of what is painted.
ghost use Rattle.std.specs.Prelude.{◌≡◌, ◌↔◌, ◌<◌, ◌≤◌, ℕ, IfOk, IsTrue, true, length};
ghost use Rattle.shape_terms.specs.Points.{sides_of, box_count, raster_point};
ghost use Rattle.shape_terms.specs.Pictures.{at};
ghost use Rattle.shape_window.specs.Windows.{is_nearer};
ghost use Rattle.shape_thickness.specs.Painting.{IsKnown};

use crate::canvas::Canvas;
use shape_cells::Cells;
use shape_dist::survey;
use shape_grid::Grid;
use shape_space::{NoMemory, Point, Sides};
use std::alloc::Global;
use std::marker::Model;

/// Places that are painted, and the squared distance of each to the nearest place that was bare.
#[derive(Drop)]
pub(crate) struct Depths<P: Point> {
    painted: Grid<P>,
    squares: Cells<u32>,
}

impl<P: Point> Model for Depths<P> {
    ghost use Rattle.shape_terms.specs.Pictures.{Picture};
    ghost use Rattle.shape_terms.specs.Distances.{AreDistances};

    ghost Value = { Picture };

    ghost view = { λ d. d.painted };

    ghost invariant = { λ d. AreDistances d.painted d.squares.values };
}

// Whether a square is no greater than that of a depth.
fn is_within(s: u32, depth: u32) -> bool
    ensures { IsTrue result ↔ (s ≤ depth) }
{
    s <= depth
}

// The painted places of a canvas.
fn painted_of<P: Point>(
    alloc: Global,
    sides: &Sides<P>,
    canvas: &Canvas,
) -> Result<Grid<P>, NoMemory>
    requires filled { length canvas.now ≡ box_count (sides_of (P.coords sides.now.lengths)) }
    ensures { IfOk result (λ g. IsKnown (sides_of (P.coords sides.now.lengths)) g canvas.now) }
{
    let mut painted = Grid::new(alloc, *sides)?;
    for i in 0..sides.count() {
        if canvas.is_painted(i) {
            painted.set_number(i);
        }
    }
    Ok(painted)
}

impl<P: Point> Depths<P> {
    /// Looks at a canvas.
    pub(crate) fn of(
        alloc: Global,
        sides: &Sides<P>,
        canvas: &Canvas,
    ) -> Result<Depths<P>, NoMemory>
        requires filled { length canvas.now ≡ box_count (sides_of (P.coords sides.now.lengths)) }
        ensures { IfOk result (λ d. IsKnown (sides_of (P.coords sides.now.lengths)) d canvas.now) }
    {
        let painted = painted_of(alloc, sides, canvas)?;
        let squares = survey(alloc, &painted)?.distances;
        Ok(Depths { painted, squares })
    }

    /// Whether each place nearer to this one than the square was painted. `false` tells nothing.
    pub(crate) fn hold(&self, place: u32, s: u32) -> bool
        requires { place < box_count self.now.sides }
        ensures { IsTrue result → (j : ℕ) → j < box_count self.now.sides
            → is_nearer (raster_point self.now.sides place) s (raster_point self.now.sides j) ≡ true
            → at self.now (raster_point self.now.sides j) ≡ true }
    {
        self.painted.has_number(place) && is_within(s, self.squares.get(place))
    }
}
