//! Squared distances as raw numbers of four bytes.
//! The order of the four bytes stands here and in `specs/Pictures.antt` alone.
ghost use Rattle.std.specs.Prelude.{◌≡◌, ◌++◌, IfOk, OnOk};
ghost use Rattle.masking.specs.Pictures.{told_square, low_first32, square_bytes};

use shape_cells::Squares;
use shape_space::NoMemory;
use std::alloc::Global;

/// The number of 32 bits that stands for a square.
pub(crate) fn told_square(square: u64) -> u32
    ensures { result ≡ told_square square }
{
    square.min(4_294_967_295) as u32
}

// Puts a number, its lowest byte first.
fn put_number(n: u32, out: &mut Vec<u8>) -> Result<(), NoMemory>
    ensures { OnOk result (out.new.items ≡ out.old.items ++ low_first32 n) }
{
    out.extend_from_slice(&n.to_le_bytes())?;
    Ok(())
}

/// The raw numbers of the squares, the lowest byte of each first.
pub(crate) fn square_bytes(alloc: Global, squares: &Squares) -> Result<Vec<u8>, NoMemory>
    ensures { IfOk result (λ v. v.items ≡ square_bytes squares.now) }
{
    let mut out = Vec::new(alloc);
    for i in 0..squares.len() {
        put_number(told_square(squares.get(i)), &mut out)?;
    }
    Ok(out)
}
