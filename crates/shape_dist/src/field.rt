//! The field of a picture: a nearest background point for each object point.
//! Another way of finding them changes nothing above `cells_of`.
ghost use Rattle.std.specs.Prelude.{◌≡◌, ◌<◌, length, IfOk, All, Some, slice_get, IsTrue, negsuc, pos};
ghost use Rattle.shape_terms.specs.Limits.{most_coordinate};
ghost use Rattle.shape_terms.specs.Points.{in_box, box_count};
ghost use Rattle.shape_terms.specs.Pictures.{Least};
ghost use Rattle.shape_terms.specs.FramedBox.{framed_sides, framed_point, IsWithin};
ghost use Rattle.shape_terms.specs.AxisLines.{apart};
ghost use Rattle.shape_terms.specs.Distances.{IsField, IsFramed};
ghost use Rattle.shape_dist.specs.Keepings.{point_keeping};
ghost use Rattle.shape_dist.specs.Spreads.{AreNearestOn};

use crate::axes::cells_of;
use crate::found::Found;
use crate::kept::Kept;
use shape_cells::Cells;
use shape_grid::Grid;
use shape_space::{NoMemory, Point, Sides, squared_distance};
use std::alloc::Global;
use std::marker::Model;

/// A point, a background point that is nearest to it, and the square of their Euclidean distance.
#[derive(Clone, Copy, Debug, PartialEq, Eq)]
pub struct Near<P> {
    /// The point.
    pub p: P,
    /// A background point of the whole space, which may lie outside the box. Where several are nearest, it is one of them.
    pub q: P,
    /// The sum of the squared differences of their coordinates.
    pub s: u32,
}

/// A nearest background point for each object point of a grid, in raster order.
///
/// It takes eight bytes for each object point: the points are kept as numbers of the framed box, and their distance is not kept.
#[derive(Drop)]
pub struct Field<P: Point> {
    sides: Sides<P>,
    kept: Vec<Kept>,
}

impl<P: Point> Model for Field<P> {
    ghost use Rattle.std.specs.Prelude.{◌<◌, ◌^◌, List, length};
    ghost use Rattle.shape_terms.specs.Points.{sides_of};
    ghost use Rattle.shape_terms.specs.Distances.{NearFact};
    ghost use Rattle.shape_dist.specs.Kept.{facts_of};

    ghost Value = { List NearFact };

    ghost view = { λ f. facts_of (sides_of (P.coords f.sides.lengths)) f.kept.items };

    ghost invariant = { λ f. length f.kept.items < 2 ^ 32 };
}

// What is kept of a point of the box.
fn kept_of<P: Point>(grid: &Grid<P>, cells: &Cells<Found>, p: P) -> Kept
    requires inside { IsTrue (in_box grid.now.sides (P.coords p)) }
    requires long { length cells.now.values ≡ box_count (framed_sides grid.now.sides) }
    requires near { AreNearestOn point_keeping grid.now
        (box_count (framed_sides grid.now.sides)) cells.now.values }
    ensures point { framed_point grid.now.sides result.p ≡ P.coords p }
    ensures least { Least grid.now (P.coords p) (framed_point grid.now.sides result.q)
        (apart grid.now.sides result.p result.q) }
    ensures p_within { IsWithin (negsuc 0) (pos most_coordinate)
        (framed_point grid.now.sides result.p) }
    ensures q_within { IsWithin (negsuc 0) (pos most_coordinate)
        (framed_point grid.now.sides result.q) }
{
    let p = grid.sides().framed_number(p);
    let q = cells.get(p).q;
    Kept { p, q }
}

// The entries of all object points.
fn collected<P: Point>(
    alloc: Global,
    grid: &Grid<P>,
    cells: &Cells<Found>,
) -> Result<Field<P>, NoMemory>
    requires long { length cells.now.values ≡ box_count (framed_sides grid.now.sides) }
    requires near { AreNearestOn point_keeping grid.now
        (box_count (framed_sides grid.now.sides)) cells.now.values }
    ensures field { IfOk result (IsField grid.now) }
    ensures framed { IfOk result (All IsFramed) }
{
    let mut kept = Vec::with_capacity(alloc, grid.count() as usize)?;
    for p in grid.objects() {
        kept.push(kept_of(grid, cells, p))?;
    }
    let sides = grid.sides();
    Ok(Field { sides, kept })
}

/// A nearest background point for each object point.
///
/// Its time is linear in the number of points of the framed box. It takes eight bytes of memory for each object point, or for each framed point where more
/// than a quarter of them are object, some bits for each framed point beside these, and eight bytes more for each object point of what it answers.
pub fn nearest<P: Point>(alloc: Global, grid: &Grid<P>) -> Result<Field<P>, NoMemory>
    ensures field { IfOk result (IsField grid.now) }
    ensures framed { IfOk result (All IsFramed) }
{
    let cells = cells_of::<P, Found>(alloc, grid)?;
    collected(alloc, grid, &cells)
}

impl<P: Point> Field<P> {
    /// The number of entries, one for each object point.
    pub fn len(&self) -> u32
        ensures { result ≡ length self.now }
    {
        self.kept.len() as u32
    }

    /// The entry of the object point that is number `i` in raster order, from 0 on.
    pub fn near(&self, i: u32) -> Near<P>
        requires { i < length self.now }
        ensures { slice_get self.now i ≡ Some
            (record { p = P.coords result.p; q = P.coords result.q; s = result.s }) }
    {
        let Kept { p, q } = self.kept[i as usize];
        let p = self.sides.framed_point(p);
        let q = self.sides.framed_point(q);
        let s = squared_distance(p, q) as u32;
        Near { p, q, s }
    }
}
