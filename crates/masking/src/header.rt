//! The front of a raw picture of Netpbm, and the sides of a flat picture.
//! What the front has is told in `specs/Pictures.antt`.
ghost use Rattle.std.specs.Prelude.{◌≡◌, ◌≤◌, ◌<◌, ◌++◌, OnOk};
ghost use Rattle.std.specs.Fmt.{decimal};
ghost use Rattle.shape_terms.specs.Limits.{most_flat};
ghost use Rattle.masking.specs.Pictures.{side, header};

use itoa::Buffer;
use shape_grid::Grid;
use shape_space::{NoMemory, P2};

/// A side of a flat picture, on the axis x or y.
pub(crate) fn side_of(grid: &Grid<P2>, axis: usize) -> usize
    requires { axis < 2 }
    ensures value { result ≡ side grid.now.sides axis }
    ensures most { result ≤ most_flat }
{
    grid.sides().side(axis) as usize
}

// Puts a count in decimal.
fn put_count(n: usize, out: &mut Vec<u8>) -> Result<(), NoMemory>
    ensures { OnOk result (out.new.items ≡ out.old.items ++ decimal n) }
{
    let mut digits = Buffer::new();
    out.extend_from_slice(digits.format(n).as_bytes())?;
    Ok(())
}

/// Puts the front of a picture.
pub(crate) fn put_header(
    magic: &[u8],
    width: usize,
    height: usize,
    out: &mut Vec<u8>,
) -> Result<(), NoMemory>
    ensures { OnOk result (out.new.items ≡ out.old.items ++ header magic.now width height) }
{
    out.extend_from_slice(magic)?;
    out.extend_from_slice(b"\n")?;
    put_count(width, out)?;
    out.extend_from_slice(b" ")?;
    put_count(height, out)?;
    out.extend_from_slice(b"\n")?;
    Ok(())
}
