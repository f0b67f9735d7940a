//! Distances in hundredths, as a raw PGM or as raw numbers of two bytes.
//! The order of the two bytes stands here and in `specs/Pictures.antt` alone.
ghost use Rattle.std.specs.Prelude.{◌≡◌, ◌≤◌, ◌++◌, IfOk, OnOk};
ghost use Rattle.std.specs.List.{flat_map};
ghost use Rattle.masking.specs.Pictures.{level, high_first, low_first, pgm, depths};

use crate::header::{put_header, side_of};
use shape_cells::Squares;
use shape_grid::Grid;
use shape_space::{NoMemory, P2};
use std::alloc::Global;

// A square whose distance is told as one that is greater: 65535 squared is below 10,000 times it.
const FAR_SQUARE: u64 = 429_484;

// The distance in hundredths of which the square is given.
fn level(square: u64) -> u16
    ensures { result ≡ level square }
{
    let near = square.min(FAR_SQUARE) as u32;
    (10_000 * near).isqrt() as u16
}

// Puts a number, its higher byte first.
fn put_high(n: u16, out: &mut Vec<u8>) -> Result<(), NoMemory>
    ensures { OnOk result (out.new.items ≡ out.old.items ++ high_first n) }
{
    out.push((n / 256) as u8)?;
    out.push((n % 256) as u8)?;
    Ok(())
}

// Puts a number, its lower byte first.
fn put_low(n: u16, out: &mut Vec<u8>) -> Result<(), NoMemory>
    ensures { OnOk result (out.new.items ≡ out.old.items ++ low_first n) }
{
    out.push((n % 256) as u8)?;
    out.push((n / 256) as u8)?;
    Ok(())
}

// Puts the distances, the higher byte of each first.
fn put_levels(squares: &Squares, out: &mut Vec<u8>) -> Result<(), NoMemory>
    ensures { OnOk result (out.new.items
        ≡ out.old.items ++ flat_map (λ s. high_first (level s)) squares.now) }
{
    for i in 0..squares.len() {
        put_high(level(squares.get(i)), out)?;
    }
    Ok(())
}

/// The raw PGM of the distances of the points of a grid's box.
pub(crate) fn greys(alloc: Global, grid: &Grid<P2>, squares: &Squares) -> Result<Vec<u8>, NoMemory>
    ensures { IfOk result (λ v. v.items ≡ pgm grid.now.sides squares.now) }
{
    let mut out = Vec::new(alloc);
    put_header(b"P5", side_of(grid, 0), side_of(grid, 1), &mut out)?;
    out.extend_from_slice(b"65535\n")?;
    put_levels(squares, &mut out)?;
    Ok(out)
}

/// The raw numbers of the distances, the lower byte of each first.
pub(crate) fn depths(alloc: Global, squares: &Squares) -> Result<Vec<u8>, NoMemory>
    ensures { IfOk result (λ v. v.items ≡ depths squares.now) }
{
    let mut out = Vec::new(alloc);
    for i in 0..squares.len() {
        put_low(level(squares.get(i)), &mut out)?;
    }
    Ok(out)
}
