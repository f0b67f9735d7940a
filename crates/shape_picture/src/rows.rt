//! The pixels that a byte of the form `P4` holds, and the grid that they fill.
//! The order of bits in a byte and of bytes in a row stands here and in `specs/Pbm.antt` alone.
ghost use Rattle.std.specs.Prelude.{◌≡◌, ◌+◌, ◌-◌, ◌≤◌, ◌<◌, ◌%◌, ◌++◌, List, Bool, ℕ, false, length, map, take, replicate, slice_index_or};
ghost use Rattle.shape_terms.specs.Points.{box_count};
ghost use Rattle.shape_picture.specs.Pbm.{bits_of};
ghost use Rattle.shape_picture.specs.Raster.{byte_pixels};

use crate::raster::put;
use shape_grid::Grid;
use shape_space::Point;

/// How many pixels the next byte holds after so many of its row: eight, or as many as the row still wants.
pub fn pixels_ahead(width: u32, column: u32) -> u32
    requires { column < width }
    ensures { (n : ℕ) → column ≡ n % width → result ≡ byte_pixels width n }
{
    (width - column).min(8)
}

/// How many pixels of its row are known after so many and those of one more byte: none where the row is whole.
pub fn column_after(width: u32, column: u32, pixels: u32) -> u32
    requires within { column < width }
    requires room { column + pixels ≤ width }
    ensures { (n : ℕ) → column ≡ n % width → result ≡ (n + pixels) % width }
{
    let next = column + pixels;
    if next == width { 0 } else { next }
}

// The bit at this place of a byte, the highest first.
fn bit(c: u8, place: u32) -> bool
    requires { place < 8 }
    ensures { result ≡ slice_index_or (bits_of c) place false }
{
    (c >> (7 - place)) % 2 == 1
}

/// Gives the next points the first bits of a byte, behind those whose values are known. A byte of background changes nothing.
pub fn put_bits<P: Point>(grid: &mut Grid<P>, from: u32, c: u8, pixels: u32)
    requires few { pixels ≤ 8 }
    requires room { from + pixels ≤ box_count grid.old.sides }
    ensures sides { grid.new.sides ≡ grid.old.sides }
    ensures values { (known : List Bool) (total : ℕ)
        → length known ≡ from → from + pixels ≤ total
        → grid.old.values ≡ known ++ replicate (total - from) false
        → grid.new.values
        ≡ (known ++ take pixels (bits_of c)) ++ replicate (total - (from + pixels)) false }
{
    grid.is_picture();
    if c == 0 {
        return;
    }
    for place in 0..pixels {
        put(grid, from + place, bit(c, place));
    }
}
