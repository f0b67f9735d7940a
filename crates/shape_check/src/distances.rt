//! The squared distances that a judge of thinnings is made of, by raster number, from those of the framed box.
//! Object points of one row have numbers in order in both, so each row is looked up once; how it is may be changed here.
ghost use Rattle.std.specs.Prelude.{◌≡◌, ◌<◌, ◌≤◌, IfOk};
ghost use Rattle.shape_terms.specs.Limits.{most_framed};
ghost use Rattle.shape_terms.specs.Points.{sides_of, box_count};
ghost use Rattle.shape_terms.specs.FramedBox.{framed_sides};
ghost use Rattle.shape_terms.specs.Distances.{AreDistances};
ghost use Rattle.shape_adj.specs.Rows.{placed, IsRow};

use judge_field::Scans;
use shape_adj::{Pairing, end_in_row};
use shape_cells::Cells;
use shape_space::{NoMemory, Sides};
use std::alloc::Global;

// Points of one row of the box, from one on: their numbers in the framed box follow that of the first.
#[derive(Clone, Copy)]
struct RowPlace {
    // The raster number of the first point, and of the first behind the row.
    first: u32,
    end: u32,
    // The number of the first point in the framed box.
    place: u32,
}

// The points from one on up to the end of its row.
fn row_at<P: Pairing>(sides: &Sides<P>, i: u32) -> RowPlace
    requires { i < box_count (sides_of (P.coords sides.now.lengths)) }
    ensures first { result.first ≡ i }
    ensures behind { i < result.end }
    ensures row { IsRow (sides_of (P.coords sides.now.lengths))
        result.first result.end result.place }
{
    RowPlace {
        first: i,
        end: end_in_row(sides, i),
        place: sides.framed_number(sides.unraster(i)),
    }
}

// The row of a point that is not before those of a row: that row, or the next with a point.
fn row_of<P: Pairing>(sides: &Sides<P>, row: RowPlace, i: u32) -> RowPlace
    requires point { i < box_count (sides_of (P.coords sides.now.lengths)) }
    requires from { row.first ≤ i }
    requires row { IsRow (sides_of (P.coords sides.now.lengths)) row.first row.end row.place }
    ensures from { result.first ≤ i }
    ensures behind { i < result.end }
    ensures row { IsRow (sides_of (P.coords sides.now.lengths))
        result.first result.end result.place }
{
    if i < row.end { row } else { row_at(sides, i) }
}

// The number in the framed box of a point of a row.
fn number_in<P: Pairing>(sides: &Sides<P>, row: RowPlace, i: u32) -> u32
    requires point { i < box_count (sides_of (P.coords sides.now.lengths)) }
    requires few { box_count (framed_sides (sides_of (P.coords sides.now.lengths))) ≤ most_framed }
    requires from { row.first ≤ i }
    requires behind { i < row.end }
    requires row { IsRow (sides_of (P.coords sides.now.lengths)) row.first row.end row.place }
    ensures { result ≡ placed (sides_of (P.coords sides.now.lengths)) i }
{
    let _ = sides;
    row.place + (i - row.first)
}

/// The squared distances of the object points by raster number, from the least ones that were scanned.
///
/// They are what a judge of thinnings is made of. A point of the background has none, and no cell of its own where there are few object points.
pub fn distances_of<P: Pairing>(alloc: Global, scans: &Scans<P>) -> Result<Cells<u32>, NoMemory>
    ensures { IfOk result (λ d. AreDistances scans.now d.values) }
{
    let grid = scans.grid();
    grid.is_picture();
    let sides = grid.sides();
    sides.framed_count();
    let mut distances = Cells::new(alloc, grid.values().copy(alloc)?)?;
    let mut row = RowPlace {
        first: 0,
        end: 0,
        place: 0,
    };
    let mut next = 0;
    while let Some(i) = grid.first_from(next) {
        row = row_of(&sides, row, i);
        distances.set(i, scans.least_at(number_in(&sides, row, i)));
        next = i + 1;
    }
    Ok(distances)
}
