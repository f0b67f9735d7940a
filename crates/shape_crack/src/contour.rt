//! One contour: the points of the cycle of cracks that begins with a crack, found by following it round.
//! Another way of keeping the points changes nothing outside this file.
ghost use Rattle.std.specs.Prelude.{◌≡◌, ◌==◌, ◌*◌, ◌<◌, ◌++◌, [], ◌∷◌, map, if◌then◌else◌, Some, slice_get, IfOk, OnOk, length};
ghost use Rattle.shape_terms.specs.Points.{box_count};
ghost use Rattle.shape_terms.specs.Contours.{IsCrack, stays, successor as successor_of};
ghost use Rattle.shape_terms.specs.Traces.{IsContourFrom, IsClosedPath};
ghost use Rattle.shape_terms.specs.CrackNumbers.{crack_number, IsPassed};
ghost use Rattle.shape_crack.specs.Terms.{point_of, crack_of};
ghost use Rattle.shape_crack.specs.MarkBits.{is_marked};
ghost use Rattle.shape_crack.specs.Marked.{IsCycleMarked};

use crate::crack::{Crack, successor};
use crate::marks::CrackMarks;
use shape_grid::Grid;
use shape_space::{NoMemory, P2, Point};
use std::alloc::Global;
use std::marker::Model;

/// The greatest side of a flat picture: the coordinates of a contour's points are below it.
pub const GREATEST_SIDE: u32 = P2::MAX_SIDE as u32;

/// The points of a cycle of cracks, in order: the pixels from which the cycle goes on to another pixel, or the one pixel that it stays at.
///
/// A pixel may come several times, where the object is thin.
#[derive(Drop)]
pub struct Contour {
    start: Crack,
    points: Vec<P2>,
}

impl Model for Contour {
    ghost use Rattle.std.specs.Prelude.{map};
    ghost use Rattle.shape_terms.specs.Traces.{Contour as Trace, IsClosedPath};
    ghost use Rattle.shape_crack.specs.Terms.{point_of, crack_of};
    ghost use Rattle.shape_crack.specs.declared.contour.TheConstants.{GREATEST_SIDE};

    ghost Value = { Trace };

    ghost view = { λ k. record { start = crack_of k.start; points = map point_of k.points.items } };

    ghost invariant = { λ k. IsClosedPath GREATEST_SIDE (map point_of k.points.items) };
}

impl Contour {
    /// The crack that the contour begins with.
    pub fn start(&self) -> Crack
        ensures { crack_of result ≡ self.now.start }
    {
        self.start
    }

    /// The number of points.
    pub fn len(&self) -> u32
        ensures value { result ≡ length self.now.points }
        ensures path { IsClosedPath GREATEST_SIDE self.now.points }
    {
        self.points.len() as u32
    }

    /// The points are those of a closed path of near pixels, at most four for each pixel of the greatest picture.
    pub fn is_closed_path(&self)
        ensures { IsClosedPath GREATEST_SIDE self.now.points }
    {
        let _ = &self.points;
    }

    /// The point at a place, from 0 on.
    pub fn point(&self, i: u32) -> P2
        requires { i < length self.now.points }
        ensures value { slice_get self.now.points i ≡ Some (point_of result) }
    {
        self.points[i as usize]
    }

    /// The points, in order.
    pub fn as_slice(&self) -> &[P2]
        ensures { map point_of result.now ≡ self.now.points }
    {
        self.points.as_slice()
    }
}

// The crack after `c`. Where it has another pixel, the pixel of `c` is put last.
fn advance(points: &mut Vec<P2>, grid: &Grid<P2>, c: Crack) -> Result<Crack, NoMemory>
    requires { IsCrack grid.now (crack_of c) }
    ensures next { IfOk result (λ n. crack_of n ≡ successor_of grid.now (crack_of c)) }
    ensures points { OnOk result (map point_of points.new.items
        ≡ map point_of points.old.items ++ (if stays grid.now (crack_of c) then [] else point_of c.p ∷ [])) }
{
    grid.is_picture();
    let next = successor(grid, c);
    if next.p != c.p {
        points.push(c.p)?;
    }
    Ok(next)
}

// Puts a pixel where no pixel was left.
fn fill(points: &mut Vec<P2>, p: P2) -> Result<(), NoMemory>
    ensures { OnOk result (map point_of points.new.items
        ≡ (if (length points.old.items == 0) then (point_of p ∷ []) else map point_of points.old.items)) }
{
    if points.is_empty() {
        points.push(p)?;
    }
    Ok(())
}

// The number of a crack: four for each pixel, in raster order.
fn number(grid: &Grid<P2>, c: Crack) -> u32
    requires { IsCrack grid.now (crack_of c) }
    ensures value { result ≡ crack_number grid.now.sides (crack_of c) }
    ensures below { result < box_count grid.now.sides * 4 }
{
    grid.sides().raster(c.p) * 4 + c.side as u32
}

// Marks a crack that a walk passes, if it is level.
fn pass(grid: &Grid<P2>, c: Crack, marks: &mut CrackMarks)
    requires crack { IsCrack grid.now (crack_of c) }
    requires room { length marks.old.upper ≡ box_count grid.now.sides }
    ensures passed { IsPassed grid.now.sides (crack_of c) (is_marked marks.old)
        (is_marked marks.new) }
    ensures room { length marks.new.upper ≡ length marks.old.upper }
{
    if c.side % 2 == 0 {
        marks.mark(number(grid, c));
    }
}

// The contour that begins with a crack, with the level cracks of its cycle marked on the way. It takes memory for the points alone, and time by
// the number of cracks.
pub(crate) fn trace_marked(
    alloc: Global,
    grid: &Grid<P2>,
    start: Crack,
    marks: &mut CrackMarks,
) -> Result<Contour, NoMemory>
    requires crack { IsCrack grid.now (crack_of start) }
    requires room { length marks.old.upper ≡ box_count grid.now.sides }
    ensures contour { IfOk result (IsContourFrom grid.now (crack_of start)) }
    ensures marked { OnOk result (IsCycleMarked grid.now (crack_of start)
        (is_marked marks.old) (is_marked marks.new)) }
    ensures room { length marks.new.upper ≡ length marks.old.upper }
{
    grid.is_picture();
    let mut points = Vec::new(alloc);
    pass(grid, start, marks);
    let mut c = advance(&mut points, grid, start)?;
    // No crack comes twice before the first one, so the steps are at most as many as there are cracks.
    let mut steps: u32 = 1;
    while c != start {
        pass(grid, c, marks);
        c = advance(&mut points, grid, c)?;
        steps += 1;
    }
    fill(&mut points, start.p)?;
    Ok(Contour { start, points })
}
