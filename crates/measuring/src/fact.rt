//! What is known of one point of the box.
//! A further column may want one more field here, and its word in `Facts`.
ghost use Rattle.std.specs.Prelude.{◌≡◌, ◌<◌, ◌≤◌, ◌^◌, IsTrue, nat_abs, pos, negsuc};
ghost use Rattle.shape_terms.specs.Limits.{most_coordinate};
ghost use Rattle.shape_terms.specs.Points.{coordinate, sides_of, in_box, box_count, raster_point};
ghost use Rattle.shape_terms.specs.Pictures.{at};
ghost use Rattle.shape_terms.specs.FramedBox.{IsWithin};
ghost use Rattle.measure_terms.specs.Facts.{at_end, at_rim, near_count, exposed, neighbours};
ghost use Rattle.measuring.specs.Told.{TellsFact};

use shape_adj::Pairing;
use shape_grid::Grid;
use shape_space::{Point, Sides};

/// A point of the box, with what is known of it.
#[derive(Clone, Copy)]
pub struct Fact<P: Point> {
    /// The number of its object from 1 on, and 0 for a point of the background.
    pub part: u32,
    /// The raster number of the point.
    pub number: u32,
    /// The point.
    pub point: P,
    /// Its squared distance to the background.
    pub square: u64,
    /// Where it is left: how many of its near neighbours are left.
    pub left: Option<u32>,
    /// How many of its side neighbours are not object.
    pub exposed: u32,
    /// Whether it lies at the border of the box.
    pub rim: bool,
}

/// The coordinate of a point of the box, and 0 on an axis that the space does not have.
pub fn place<P: Point>(sides: Sides<P>, p: P, k: usize) -> u32
    requires { IsTrue (in_box (sides_of (P.coords sides.lengths)) (P.coords p)) }
    ensures value { result ≡ nat_abs (coordinate (P.coords p) k) }
    ensures small { result < most_coordinate }
{
    if k < P::DIM { p.coord(k) as u32 } else { 0 }
}

// Whether a coordinate is the first or the last of a side.
fn at_end(side: u32, x: u32) -> bool
    requires { x < most_coordinate }
    ensures { result ≡ at_end side x }
{
    x == 0 || x + 1 == side
}

// Whether a point of the box lies at its border.
fn at_rim<P: Point>(sides: Sides<P>, p: P) -> bool
    requires { IsTrue (in_box (sides_of (P.coords sides.lengths)) (P.coords p)) }
    ensures { result ≡ at_rim (sides_of (P.coords sides.lengths)) (P.coords p) }
{
    let mut rim = false;
    for k in 0..P::DIM {
        let end = at_end(sides.side(k) as u32, place(sides, p, k));
        rim = rim || end;
    }
    rim
}

// How many of a point's near neighbours are left.
fn near_count<P: Pairing>(left: &Grid<P>, p: P) -> u32
    requires { IsWithin (negsuc 1) (pos most_coordinate) (P.coords p) }
    ensures { result ≡ near_count left.now (P.coords p) }
{
    let mut count = 0;
    for k in 0..P::NEAR_COUNT {
        if left.has(p.near(k)) {
            count += 1;
        }
    }
    count
}

// How many of a point's side neighbours are not object.
fn exposed<P: Pairing>(object: &Grid<P>, p: P) -> u32
    requires { IsWithin (negsuc 1) (pos most_coordinate) (P.coords p) }
    ensures value { result ≡ exposed object.now (P.coords p) }
    ensures few { result ≤ 6 }
{
    let mut count = 0;
    for k in 0..P::SIDE_COUNT {
        if !object.has(p.side(k)) {
            count += 1;
        }
    }
    count
}

// Where a point is left: how many of its near neighbours are left.
fn neighbours<P: Pairing>(left: &Grid<P>, p: P) -> Option<u32>
    requires { IsWithin (negsuc 1) (pos most_coordinate) (P.coords p) }
    ensures { result ≡ neighbours left.now (P.coords p) }
{
    if left.has(p) {
        Some(near_count(left, p))
    } else {
        None
    }
}

// The fact of the point with a raster number, of an object with a number.
pub(crate) fn fact_of<P: Pairing>(
    object: &Grid<P>,
    left: &Grid<P>,
    part: u32,
    square: u64,
    i: u32,
) -> Fact<P>
    requires { i < box_count left.now.sides }
    ensures told { TellsFact P.coords object.now left.now part square i result }
    ensures inside { IsTrue (in_box left.now.sides (P.coords result.point)) }
    ensures exposed { result.exposed ≤ 6 }
    ensures number { P.coords result.point ≡ raster_point left.now.sides result.number }
{
    let sides = left.sides();
    let point = sides.unraster(i);
    Fact {
        part,
        number: i,
        point,
        square,
        left: neighbours(left, point),
        exposed: exposed(object, point),
        rim: at_rim(sides, point),
    }
}
