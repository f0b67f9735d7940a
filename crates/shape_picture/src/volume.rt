//! Reading a raw volume of known sides: one byte for each point, and then the end of the file.
//! A further meaning of bytes is a change of `specs/Raw.antt`; whether a file goes on is asked here alone.
ghost use Rattle.std.specs.Prelude.{◌≡◌, [], ◌∷◌, true, Option, List, ℕ};
ghost use Rattle.shape_terms.specs.Points.{sides_of, box_count};
ghost use Rattle.shape_terms.specs.Pictures.{blank};
ghost use Rattle.shape_desk.specs.Desk.{OnlyReadsAt};
ghost use Rattle.shape_desk.specs.declared.desk.Place.TheVariants.{Picture};
ghost use Rattle.shape_picture.specs.Answers.{raw, PictureAnswer};
ghost use Rattle.shape_picture.specs.Parts.{VolumeSoFar, VolumeAnswer};

use crate::bytes::ByteReader;
use crate::fault::{PictureError, PictureFault};
use crate::raster::put;
use shape_desk::{Desk, Place};
use shape_grid::Grid;
use shape_space::{P3, Point, Sides};
use std::alloc::Global;

// Reads a byte for each point of the box.
fn read_points<P: Point, D: Desk>(
    mut grid: Grid<P>,
    bytes: &mut ByteReader,
    desk: &mut D,
) -> Result<Grid<P>, PictureError>
    requires begun { (D.state desk.old).begun Picture ≡ true }
    requires none_ahead { bytes.old ≡ [] }
    requires blank { grid ≡ blank grid.sides }
    ensures answer { VolumeAnswer grid.sides
        ((D.state desk.old).left Picture) ((D.state desk.new).left Picture) bytes.new
        (D.state desk.old).read_faults (D.state desk.new).read_faults result }
    ensures reads { OnlyReadsAt Picture (D.state desk.old) (D.state desk.new) }
{
    let total = grid.sides().count();
    let longest = u64::from(total) + 1;
    let mut i: u32 = 0;
    while i < total {
        let at = u64::from(i);
        match bytes.take(at, longest, desk)? {
            Some(c) => put(&mut grid, i, c != 0),
            None => return Err(PictureError::Bad(PictureFault::Short { at })),
        }
        i += 1;
    }
    Ok(grid)
}

// The volume, if the file ends behind its last point.
fn if_ended<P: Point, D: Desk>(
    grid: Grid<P>,
    bytes: &mut ByteReader,
    desk: &mut D,
) -> Result<Grid<P>, PictureError>
    requires begun { (D.state desk.old).begun Picture ≡ true }
    ensures answer { (all : Option (List ℕ))
        → VolumeSoFar grid.sides (box_count grid.sides) grid all
        ((D.state desk.old).left Picture) bytes.old
        → PictureAnswer (raw grid.sides) all ((D.state desk.new).left Picture)
        (D.state desk.old).read_faults (D.state desk.new).read_faults result }
    ensures reads { OnlyReadsAt Picture (D.state desk.old) (D.state desk.new) }
{
    let at = u64::from(grid.sides().count());
    match bytes.take(at, at + 1, desk)? {
        None => Ok(grid),
        Some(_) => Err(PictureError::Bad(PictureFault::Trailing)),
    }
}

/// Reads the raw volume of these sides that the whole file at the picture's place is.
///
/// x runs fastest, then y, then z. At most one byte more than there are points is taken from the desk, so a file without
/// end is answered too. It takes memory for 65536 bytes and the grid.
pub fn read_raw<D: Desk>(
    alloc: Global,
    desk: &mut D,
    sides: Sides<P3>,
) -> Result<Grid<P3>, PictureError>
    requires { (D.state desk.old).begun Picture ≡ true }
    ensures answer { PictureAnswer
        (raw (sides_of (sides.lengths.x ∷ sides.lengths.y ∷ sides.lengths.z ∷ [])))
        ((D.state desk.old).left Picture) ((D.state desk.new).left Picture)
        (D.state desk.old).read_faults (D.state desk.new).read_faults result }
    ensures reads { OnlyReadsAt Picture (D.state desk.old) (D.state desk.new) }
{
    let mut bytes = ByteReader::new(alloc)?;
    let grid = Grid::new(alloc, sides)?;
    let grid = read_points(grid, &mut bytes, desk)?;
    if_ended(grid, &mut bytes, desk)
}
