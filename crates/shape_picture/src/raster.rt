//! The raster of the form `P1` as a machine that takes one byte after another, and the grid that it fills.
//! Its steps are those of `specs/Raster.antt`; what they mean for the grammar is proved in `proofs/RasterSteps.antt`.
ghost use Rattle.std.specs.Prelude.{◌≡◌, ◌<◌, slice_set, if◌then◌else◌, true};
ghost use Rattle.shape_terms.specs.Points.{box_count};
ghost use Rattle.shape_picture.specs.Raster.{piece_of};

use crate::fault::PictureFault;
use crate::header::{is_line_end, is_white};
use shape_grid::Grid;
use shape_space::Point;

/// What a byte is where the pixels are read.
#[derive(Clone, Copy, Debug, PartialEq, Eq)]
pub enum Piece {
    /// No pixel; whether what follows is within a comment.
    Gap(bool),
    Pixel(bool),
}

/// What the byte at a place is, within a comment or not, after so many pixels.
pub fn piece_at(comment: bool, count: u32, at: u64, c: u8) -> Result<Piece, PictureFault>
    ensures { result ≡ piece_of comment count at c }
{
    if comment {
        Ok(Piece::Gap(!is_line_end(c)))
    } else if is_white(c) {
        Ok(Piece::Gap(false))
    } else if count == 0 && c == b'#' {
        Ok(Piece::Gap(true))
    } else if c == b'0' || c == b'1' {
        Ok(Piece::Pixel(c == b'1'))
    } else {
        Err(PictureFault::BadByte { at })
    }
}

/// Makes the point with a raster number an object point, or leaves it as it is.
pub fn put<P: Point>(grid: &mut Grid<P>, i: u32, object: bool)
    requires { i < box_count grid.old.sides }
    ensures sides { grid.new.sides ≡ grid.old.sides }
    ensures values { grid.new.values
        ≡ (if object then slice_set grid.old.values i true else grid.old.values) }
{
    if object {
        grid.set_number(i);
    }
}
