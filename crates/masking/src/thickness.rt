//! Local thickness in hundredths, as a raw PGM or as raw numbers of two bytes: the diameter of the greatest ball that holds a point.
//! Which balls there are stands in `shape_thickness`, and how numbers are put in `distances.rt`.
ghost use Rattle.std.specs.Prelude.{◌≡◌, ◌*◌, IfOk, length, map};
ghost use Rattle.shape_terms.specs.Points.{box_count};
ghost use Rattle.shape_thickness.specs.Greatest.{greatest_squares};
ghost use Rattle.masking.specs.Pictures.{told_square, told_diameter, squared_diameters, pgm, depths};

use crate::distances::{depths, greys};
use crate::squares::told_square;
use report_lines::Seen;
use shape_cells::Squares;
use shape_grid::Grid;
use shape_space::{NoMemory, P2, P3, Point};
use shape_thickness::greatest;
use std::alloc::Global;

// The squares as numbers of 32 bits.
fn told_squares(alloc: Global, squares: &Squares) -> Result<Vec<u32>, NoMemory>
    ensures { IfOk result (λ v. v.items ≡ map told_square squares.now) }
{
    let mut told = Vec::with_capacity(alloc, squares.len())?;
    for i in 0..squares.len() {
        told.push(told_square(squares.get(i)))?;
    }
    Ok(told)
}

/// Of each point of the box, in raster order, the square of the greatest ball that holds it, by the squares that a report gives; one
/// of 2^32 and more counts as one of 2^32 - 1.
pub fn greatest_balls<P: Point>(
    alloc: Global,
    object: &Grid<P>,
    squares: &Squares,
) -> Result<Vec<u32>, NoMemory>
    requires { length squares.now ≡ box_count object.now.sides }
    ensures { IfOk result
        (λ v. v.items ≡ greatest_squares object.now (map told_square squares.now)) }
{
    if let Some(short) = squares.short() {
        return greatest(alloc, object, short);
    }
    let told = told_squares(alloc, squares)?;
    greatest(alloc, object, told.as_slice())
}

// The squared diameter of a ball of which the squared radius is given.
fn told_diameter(square: u32) -> u32
    ensures { result ≡ told_diameter square }
{
    told_square(4 * u64::from(square))
}

// Makes squared diameters of squared radii.
fn double(squares: &mut [u32])
    ensures { squares.new ≡ map told_diameter squares.old }
{
    for square in squares.iter_mut() {
        *square = told_diameter(*square);
    }
}

// Of each point of the box the squared diameter of the greatest ball that holds it.
fn diameters<P: Point>(alloc: Global, seen: &Seen<P>) -> Result<Squares, NoMemory>
    ensures { IfOk result (λ s. s ≡ squared_diameters seen.now.object seen.now.squares) }
{
    let mut squares = greatest_balls(alloc, seen.object(), seen.squares())?;
    double(squares.as_mut_slice());
    Ok(Squares::of(squares))
}

/// The raw PGM of the thickness at the points of a flat picture.
pub(crate) fn thickness_greys(alloc: Global, seen: &Seen<P2>) -> Result<Vec<u8>, NoMemory>
    ensures { IfOk result (λ v. v.items
        ≡ pgm seen.now.object.sides (squared_diameters seen.now.object seen.now.squares)) }
{
    let squares = diameters(alloc, seen)?;
    greys(alloc, seen.object(), &squares)
}

/// The raw numbers of the thickness at the points of a volume, the lower byte of each first.
pub(crate) fn thickness_depths(alloc: Global, seen: &Seen<P3>) -> Result<Vec<u8>, NoMemory>
    ensures { IfOk result (λ v. v.items
        ≡ depths (squared_diameters seen.now.object seen.now.squares)) }
{
    let squares = diameters(alloc, seen)?;
    depths(alloc, &squares)
}
