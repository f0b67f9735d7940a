//! All contours of a picture: its object pixels are looked at in raster order, and where a crack is not marked yet its cycle is traced and marked.
//! The least crack of a cycle is over an upper or a lower side, so that no other side is looked at.
ghost use Rattle.std.specs.Prelude.{◌≡◌, ◌<◌, ◌↔◌, IsTrue, IfOk, OnOk, ◌%◌, length};
ghost use Rattle.shape_terms.specs.Points.{box_count, raster_point};
ghost use Rattle.shape_terms.specs.Pictures.{at};
ghost use Rattle.shape_terms.specs.Contours.{IsCrack};
ghost use Rattle.shape_terms.specs.Traces.{AreContours};
ghost use Rattle.shape_crack.specs.Terms.{side_of};
ghost use Rattle.shape_crack.specs.MarkBits.{is_marked};
ghost use Rattle.shape_crack.specs.Marked.{IsTaken};

use crate::contour::{Contour, trace_marked};
use crate::crack::Crack;
use crate::list::Contours;
use crate::marks::CrackMarks;
use shape_grid::Grid;
use shape_space::{NoMemory, P2};
use std::alloc::Global;

// Whether the pixel over one of the object is background.
fn is_top(grid: &Grid<P2>, i: u32) -> bool
    requires pixel { i < box_count grid.now.sides }
    requires object { IsTrue (at grid.now (raster_point grid.now.sides i)) }
    ensures { IsTrue result ↔ IsCrack grid.now (side_of grid.now.sides i 0) }
{
    let width = grid.sides().side(0) as u32;
    i < width || !grid.has_number(i - width)
}

// Whether the pixel under one of the object is background.
fn is_bottom(grid: &Grid<P2>, i: u32) -> bool
    requires pixel { i < box_count grid.now.sides }
    requires object { IsTrue (at grid.now (raster_point grid.now.sides i)) }
    ensures { IsTrue result ↔ IsCrack grid.now (side_of grid.now.sides i 2) }
{
    let sides = grid.sides();
    let below = i + sides.side(0) as u32;
    below >= sides.count() || !grid.has_number(below)
}

// Puts the contour from an upper or a lower side of a pixel last and marks its cycle, where the side is not marked yet.
fn take(
    alloc: Global,
    grid: &Grid<P2>,
    i: u32,
    side: u8,
    marks: &mut CrackMarks,
    list: &mut Vec<Contour>,
) -> Result<(), NoMemory>
    requires pixel { i < box_count grid.now.sides }
    requires crack { IsCrack grid.now (side_of grid.now.sides i side) }
    requires level { side % 2 ≡ 0 }
    requires room { length marks.old.upper ≡ box_count grid.now.sides }
    ensures taken { OnOk result (IsTaken grid.now (side_of grid.now.sides i side)
        (is_marked marks.old) (is_marked marks.new) list.old.items list.new.items) }
    ensures room { length marks.new.upper ≡ length marks.old.upper }
{
    let sides = grid.sides();
    if !marks.has(i * 4 + side as u32) {
        let start = Crack {
            p: sides.unraster(i),
            side,
        };
        let contour = trace_marked(alloc, grid, start, marks)?;
        list.push(contour)?;
    }
    Ok(())
}

/// The contours of a picture: one for each cycle of its cracks, from the least crack of it, in the order of these.
///
/// It takes time by the numbers of pixels and cracks, and beside the contours two bits for each pixel.
pub fn contours(alloc: Global, grid: &Grid<P2>) -> Result<Contours, NoMemory>
    ensures { IfOk result (AreContours grid.now) }
{
    grid.is_picture();
    let count = grid.sides().count();
    let mut marks = CrackMarks::new(alloc, count as usize)?;
    let mut list = Vec::new(alloc);
    let mut next = 0;
    while let Some(i) = grid.first_from(next) {
        if is_top(grid, i) {
            take(alloc, grid, i, 0, &mut marks, &mut list)?;
        }
        if is_bottom(grid, i) {
            take(alloc, grid, i, 2, &mut marks, &mut list)?;
        }
        next = i + 1;
    }
    Ok(Contours::from_list(list))
}
