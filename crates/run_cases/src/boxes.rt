//! What is told of boxes and their points, of neighbours, masks and labels.
ghost use Rattle.std.specs.Prelude.{pos, negsuc, ◌<◌, ◌^◌};
ghost use Rattle.shape_terms.specs.FramedBox.{IsWithin};
ghost use Rattle.shape_terms.specs.Limits.{most_coordinate};

use crate::case::wanting;
use crate::numbers::{count, picture, point};
use shape_adj::{Pairing, labels};
use shape_space::{P2, Point, Sides};
use shape_tests::mask::is_simple_mask;
use shape_topo::{SimpleMask, background_number, object_number};
use std::alloc::Global;
use std::io;

// Puts the coordinates of a point behind a text, and a word behind them.
fn put_point<P: Point>(text: &mut String, p: P, behind: &str) -> io::Result<()> {
    for k in 0..P::DIM {
        write!(text, " {}", p.coord(k))?;
    }
    Ok(text.push_str(behind)?)
}

/// How many points a box has, with its frame and without, and the numbers of a point in both, where it has them.
/// The sides of the box are told, and the point behind them.
pub(crate) fn tell_box<P: Point>(alloc: Global, numbers: &[i64]) -> io::Result<String> {
    let Some(sides) = Sides::try_new(point::<P>(numbers, 0)) else {
        return Ok(String::from_str(alloc, "no box")?);
    };
    let p = point(numbers, P::DIM);
    let mut text = format!(in alloc; "{} {}", sides.count(), sides.framed_count())?;
    if sides.inside(p) {
        write!(text, ", inside {}", sides.raster(p))?;
    }
    if sides.in_frame(p) {
        write!(text, ", framed {}", sides.framed_number(p))?;
    }
    Ok(text)
}

/// The points of a box with a raster number, and with this number in the frame.
/// The sides of the box are told, and the number behind them.
pub(crate) fn tell_place<P: Point>(alloc: Global, numbers: &[i64]) -> io::Result<String> {
    let Some(sides) = Sides::try_new(point::<P>(numbers, 0)) else {
        return Ok(String::from_str(alloc, "no box")?);
    };
    let i = count(numbers, P::DIM);
    let mut text = String::new(alloc);
    if i < sides.count() {
        put_point(&mut text, sides.unraster(i), " inside,")?;
    }
    if i < sides.framed_count() {
        put_point(&mut text, sides.framed_point(i), " framed")?;
    }
    Ok(text)
}

/// The near neighbours of a point, its side neighbours, and which near neighbours are round it.
pub(crate) fn tell_near<P: Pairing>(alloc: Global, p: P) -> io::Result<String>
    requires { IsWithin (negsuc 1) (pos most_coordinate) (P.coords p) }
{
    let mut text = String::new(alloc);
    for k in 0..P::NEAR_COUNT {
        put_point(&mut text, p.near(k), ",")?;
    }
    text.push_str(" beside")?;
    for k in 0..P::SIDE_COUNT {
        put_point(&mut text, p.side(k), ",")?;
    }
    write!(text, " round {}", P::ROUND)?;
    Ok(text)
}

/// The labels of the points of a picture, in raster order.
pub(crate) fn tell_labels(alloc: Global, numbers: &[i64]) -> io::Result<String> {
    let grid = picture::<P2>(alloc, numbers)?;
    let labels = labels(alloc, &grid).map_err(wanting)?;
    let mut text = String::new(alloc);
    for i in 0..grid.sides().count() {
        write!(text, " {}", labels.label(i))?;
    }
    Ok(text)
}

/// The numbers of components of object and background of a mask, and whether it is that of a simple point.
pub(crate) fn tell_mask<P: SimpleMask>(alloc: Global, mask: u32) -> io::Result<String>
    requires { mask < 2 ^ P.NEAR_COUNT }
{
    let object = object_number::<P>(mask);
    let background = background_number::<P>(mask);
    let is_simple = is_simple_mask::<P>(mask);
    Ok(format!(in alloc; "{object} {background} {is_simple}")?)
}
