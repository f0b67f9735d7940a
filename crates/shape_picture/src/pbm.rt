//! Reading a PBM byte by byte: the header, then the pixels into a grid.
//! No function holds the file; each takes one byte at most, or loops over one that does.
ghost use Rattle.std.specs.Prelude.{◌≡◌, ◌+◌, ◌≤◌, ◌<◌, [], ◌∷◌, true, false, Option, List, ℕ};
ghost use Rattle.shape_terms.specs.Points.{sides_of};
ghost use Rattle.shape_desk.specs.Desk.{OnlyReadsAt};
ghost use Rattle.shape_desk.specs.declared.desk.Place.TheVariants.{Picture};
ghost use Rattle.shape_terms.specs.Limits.{most_flat, most_bytes};
ghost use Rattle.shape_picture.specs.Answers.{pbm, PictureAnswer};
ghost use Rattle.shape_picture.specs.Pbm.{IsUnfinished};
ghost use Rattle.shape_picture.specs.Raster.{PictureSoFar, RowsSoFar};
ghost use Rattle.shape_picture.specs.Parts.{BytesTaken, FrontTaken, NextByteAnswer, HeaderAnswer};

use crate::bytes::ByteReader;
use crate::fault::{PictureError, PictureFault};
use crate::header::{Form, Header, Progress, step};
use crate::raster::{Piece, piece_at, put};
use crate::rows::{column_after, pixels_ahead, put_bits};
use shape_desk::{Desk, Place};
use shape_grid::Grid;
use shape_space::{MOST_BYTES, P2, Point, Sides};
use std::alloc::Global;

/// The greatest side of a PBM.
pub const MOST_SIDE: u32 = P2::MAX_SIDE as u32;

// Takes the next byte of a picture that is not complete.
fn next_byte<D: Desk>(at: u64, bytes: &mut ByteReader, desk: &mut D) -> Result<u8, PictureError>
    requires more { at < most_bytes }
    requires begun { (D.state desk.old).begun Picture ≡ true }
    ensures answer { (all : Option (List ℕ)) (front : List ℕ)
        → BytesTaken most_bytes at all ((D.state desk.old).left Picture) bytes.old front
        → IsUnfinished most_flat front
        → NextByteAnswer most_flat most_bytes at all ((D.state desk.new).left Picture) bytes.new
        front (D.state desk.old).read_faults (D.state desk.new).read_faults result }
    ensures reads { OnlyReadsAt Picture (D.state desk.old) (D.state desk.new) }
{
    match bytes.take(at, MOST_BYTES, desk)? {
        Some(c) => Ok(c),
        None => Err(PictureError::Bad(PictureFault::Short { at })),
    }
}

// The form and the sides of a picture, and how many bytes were taken with its header.
#[derive(Clone, Copy)]
struct Heading {
    form: Form,
    width: u32,
    height: u32,
    at: u64,
}

// Reads the header.
fn read_header<D: Desk>(bytes: &mut ByteReader, desk: &mut D) -> Result<Heading, PictureError>
    requires begun { (D.state desk.old).begun Picture ≡ true }
    requires none_ahead { bytes.old ≡ [] }
    ensures answer { HeaderAnswer most_flat most_bytes
        ((D.state desk.old).left Picture) ((D.state desk.new).left Picture) bytes.new
        (D.state desk.old).read_faults (D.state desk.new).read_faults result }
    ensures reads { OnlyReadsAt Picture (D.state desk.old) (D.state desk.new) }
{
    let mut header = Header::Start;
    let mut at: u64 = 0;
    while at < MOST_BYTES {
        let c = next_byte(at, bytes, desk)?;
        match step(MOST_SIDE, at, header, c) {
            Err(fault) => return Err(PictureError::Bad(fault)),
            Ok(Progress::Done(form, width, height)) => return Ok(Heading {
                form,
                width,
                height,
                at: at + 1,
            }),
            Ok(Progress::More(next)) => {
                header = next;
                at += 1;
            }
        }
    }
    Err(PictureError::Bad(PictureFault::TooLong))
}

// The box of these sides.
fn box_of(width: u32, height: u32) -> Sides<P2>
    requires some_width { 1 ≤ width }
    requires width { width ≤ most_flat }
    requires some_height { 1 ≤ height }
    requires height { height ≤ most_flat }
    ensures { sides_of (result.lengths.x ∷ result.lengths.y ∷ []) ≡ width ∷ height ∷ [] }
{
    match Sides::try_new(P2 {
        x: width as i32,
        y: height as i32,
    }) {
        Some(sides) => sides,
        None => unreachable!(),
    }
}

// Reads the pixels of the form `P1`.
fn read_raster<D: Desk>(
    from: u64,
    mut grid: Grid<P2>,
    bytes: &mut ByteReader,
    desk: &mut D,
) -> Result<Grid<P2>, PictureError>
    requires begun { (D.state desk.old).begun Picture ≡ true }
    ensures answer { (all : Option (List ℕ))
        → FrontTaken (PictureSoFar most_flat grid false 0) most_bytes from all
        ((D.state desk.old).left Picture) bytes.old
        → PictureAnswer (pbm most_flat most_bytes) all ((D.state desk.new).left Picture)
        (D.state desk.old).read_faults (D.state desk.new).read_faults result }
    ensures reads { OnlyReadsAt Picture (D.state desk.old) (D.state desk.new) }
{
    let total = grid.sides().count();
    let mut at = from;
    let mut comment = false;
    let mut count: u32 = 0;
    while at < MOST_BYTES {
        let c = next_byte(at, bytes, desk)?;
        match piece_at(comment, count, at, c) {
            Err(fault) => return Err(PictureError::Bad(fault)),
            Ok(Piece::Gap(within)) => {
                comment = within;
                at += 1;
            }
            Ok(Piece::Pixel(object)) => {
                put(&mut grid, count, object);
                comment = false;
                count += 1;
                at += 1;
                if count == total {
                    return Ok(grid);
                }
            }
        }
    }
    Err(PictureError::Bad(PictureFault::TooLong))
}

// Reads the rows of the form `P4`.
fn read_rows<D: Desk>(
    heading: Heading,
    mut grid: Grid<P2>,
    bytes: &mut ByteReader,
    desk: &mut D,
) -> Result<Grid<P2>, PictureError>
    requires begun { (D.state desk.old).begun Picture ≡ true }
    requires sides { grid.sides ≡ heading.width ∷ heading.height ∷ [] }
    requires some_width { 1 ≤ heading.width }
    ensures answer { (all : Option (List ℕ))
        → FrontTaken (RowsSoFar most_flat grid 0) most_bytes heading.at all
        ((D.state desk.old).left Picture) bytes.old
        → PictureAnswer (pbm most_flat most_bytes) all ((D.state desk.new).left Picture)
        (D.state desk.old).read_faults (D.state desk.new).read_faults result }
    ensures reads { OnlyReadsAt Picture (D.state desk.old) (D.state desk.new) }
{
    let total = grid.sides().count();
    let mut at = heading.at;
    let mut count: u32 = 0;
    let mut column: u32 = 0;
    while at < MOST_BYTES {
        let c = next_byte(at, bytes, desk)?;
        let pixels = pixels_ahead(heading.width, column);
        put_bits(&mut grid, count, c, pixels);
        at += 1;
        count += pixels;
        column = column_after(heading.width, column, pixels);
        if count == total {
            return Ok(grid);
        }
    }
    Err(PictureError::Bad(PictureFault::TooLong))
}

/// Reads the PBM at the front of the picture's place, in the form `P1` or `P4`.
///
/// What follows the last pixel, or the last byte of the last row, is not looked at, but may have been taken from the desk.
/// It takes memory for 65536 bytes and the grid.
pub fn read_pbm<D: Desk>(alloc: Global, desk: &mut D) -> Result<Grid<P2>, PictureError>
    requires { (D.state desk.old).begun Picture ≡ true }
    ensures answer { PictureAnswer (pbm most_flat most_bytes)
        ((D.state desk.old).left Picture) ((D.state desk.new).left Picture)
        (D.state desk.old).read_faults (D.state desk.new).read_faults result }
    ensures reads { OnlyReadsAt Picture (D.state desk.old) (D.state desk.new) }
{
    let mut bytes = ByteReader::new(alloc)?;
    let heading = read_header(&mut bytes, desk)?;
    let grid = Grid::new(alloc, box_of(heading.width, heading.height))?;
    match heading.form {
        Form::Plain => read_raster(heading.at, grid, &mut bytes, desk),
        Form::Packed => read_rows(heading, grid, &mut bytes, desk),
    }
}
