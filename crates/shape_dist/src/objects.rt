//! The values of a grid at the points of its framed box, row after row.
//! What is made of them belongs elsewhere.
ghost use Rattle.std.specs.Prelude.{◌≡◌, ◌+◌, ◌<◌, ◌≤◌, ℕ, IfOk, length};
ghost use Rattle.shape_terms.specs.Limits.{most_framed};
ghost use Rattle.shape_terms.specs.Points.{box_count, raster_point};
ghost use Rattle.shape_terms.specs.FramedBox.{framed_sides, framed_point};
ghost use Rattle.shape_dist.specs.FirstAxis.{line_length, IsLine};
ghost use Rattle.shape_dist.specs.Objects.{AreValuesTo, AreFramedValues};

use shape_grid::{Bits, Grid};
use shape_space::{NoMemory, Point};
use std::alloc::Global;

// Marks the object points of a row of the box: n points from the one with the raster number `start` on, which has the framed number `place`.
fn mark_row<P: Point>(grid: &Grid<P>, objects: &mut Bits, place: u32, start: u32, n: u32)
    requires row { (x : ℕ) → x < n
        → raster_point grid.now.sides (start + x) ≡ framed_point grid.now.sides (place + x) }
    requires inside { start + n ≤ box_count grid.now.sides }
    requires within { place + n ≤ box_count (framed_sides grid.now.sides) }
    requires few { place + n ≤ most_framed }
    requires before { AreValuesTo grid.now place objects.old }
    ensures { AreValuesTo grid.now (place + n) objects.new }
{
    grid.is_picture();
    let values = grid.values();
    let mut x = 0;
    while x < n {
        let from = values.end_of_falses((start + x) as usize, (start + n) as usize) as u32 - start;
        let until = values.end_of_trues((start + from) as usize, (start + n) as usize) as u32
            - start;
        objects.set_all((place + from) as usize, (place + until) as usize);
        x = until;
    }
}

// Marks the object points of a line of the framed box: both of its ends lie in the frame, and so does all of it, or else none of the rest.
fn mark_line<P: Point>(grid: &Grid<P>, objects: &mut Bits, from: u32, side: u32)
    requires line { IsLine grid.now from side }
    requires side { side ≡ line_length grid.now.sides }
    requires few { from + side ≤ most_framed }
    requires before { AreValuesTo grid.now from objects.old }
    ensures { AreValuesTo grid.now (from + side) objects.new }
{
    let sides = grid.sides();
    let first = sides.framed_point(from).with(0, 0);
    if sides.inside(first) {
        mark_row(grid, objects, from + 1, sides.raster(first), side - 2);
    }
}

/// The values of all points of the framed box.
pub fn framed_values<P: Point>(alloc: Global, grid: &Grid<P>) -> Result<Bits, NoMemory>
    ensures values { IfOk result (AreFramedValues grid.now) }
    ensures few { IfOk result (λ b. length b ≤ most_framed) }
{
    let sides = grid.sides();
    let side = sides.framed_side(0);
    let n = sides.framed_count();
    let mut objects = Bits::new(alloc, n as usize)?;
    for t in 0..n / side {
        mark_line(grid, &mut objects, t * side, side);
    }
    Ok(objects)
}
