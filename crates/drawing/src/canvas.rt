//! A grid of cells, on which dabs of ink are laid: each place shows the nearest one.
//! What the inks are is told in `sheet`.
ghost use Rattle.std.specs.Prelude.{◌≡◌, [], IfOk, List, ℕ, filter};
ghost use Rattle.shape_terms.specs.Points.{sides_of, box_points};
ghost use Rattle.drawing.specs.Seen.{flat, flats};
ghost use Rattle.drawing.specs.Canvas.{canvas_of, cell_at, laid_on};
ghost use Rattle.drawing.specs.Inks.{has_ink, points_with};

use crate::cell::{Cell, nearer};
use shape_space::{NoMemory, P2, Sides};
use std::alloc::Global;
use std::marker::Model;

/// A grid of cells.
#[derive(Drop)]
pub struct Canvas {
    sides: Sides<P2>,
    cells: Vec<Option<Cell>>,
}

impl Model for Canvas {
    ghost use Rattle.std.specs.Prelude.{◌≡◌, length};
    ghost use Rattle.shape_terms.specs.Points.{sides_of, box_count};
    ghost use Rattle.drawing.specs.Seen.{flat};
    ghost use Rattle.drawing.specs.Canvas as Terms;

    ghost Value = { Terms.Canvas };

    ghost view = { λ c. record { sides = sides_of (flat c.sides.lengths); cells = c.cells.items } };

    ghost invariant = { λ c. c.cells.len ≡ box_count (sides_of (flat c.sides.lengths)) };
}

// Whether a place shows an ink.
fn has_ink(shown: Option<Cell>, colour: u8, shade: u8) -> bool
    ensures { result ≡ has_ink colour shade shown }
{
    match shown {
        None => false,
        Some(cell) => cell.colour == colour && cell.shade == shade,
    }
}

impl Canvas {
    /// A grid without a dab.
    pub(crate) fn new(alloc: Global, sides: Sides<P2>) -> Result<Canvas, NoMemory>
        ensures { IfOk result (λ c. c ≡ canvas_of (sides_of (flat sides.lengths)) []) }
    {
        let count = sides.count() as usize;
        let cells = vec![in alloc; None; count]?;
        Ok(Canvas { sides, cells })
    }

    /// Lays a cell at a place. Outside the grid nothing is laid.
    pub(crate) fn lay(&mut self, place: P2, cell: Cell)
        ensures { self.new ≡ laid_on self.old (record { place = flat place; cell = cell }) }
    {
        if self.sides.inside(place) {
            let i = self.sides.raster(place) as usize;
            self.cells[i] = nearer(self.cells[i], cell);
        }
    }

    /// The places that show an ink, in raster order.
    pub(crate) fn points_with(
        &self,
        alloc: Global,
        colour: u8,
        shade: u8,
    ) -> Result<Vec<P2>, NoMemory>
        ensures { IfOk result (λ ps. flats ps.items ≡ points_with self.now colour shade) }
    {
        let mut points = Vec::new(alloc);
        for i in 0..self.sides.count() {
            if has_ink(self.cells[i as usize], colour, shade) {
                points.push(self.sides.unraster(i))?;
            }
        }
        Ok(points)
    }
}
