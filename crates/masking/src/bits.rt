//! A flat picture as a raw PBM, a bit for each pixel.
//! The order of bits in a byte stands here and in `specs/Pictures.antt` alone.
ghost use Rattle.std.specs.Prelude.{◌≡◌, ◌≤◌, ◌*◌, ◌++◌, map, IfOk, OnOk};
ghost use Rattle.std.specs.List.{flat_map, range_with_len};
ghost use Rattle.shape_terms.specs.Limits.{most_flat, most_coordinate};
ghost use Rattle.masking.specs.Pictures.{side, weight, eight, row, pbm};

use crate::header::{put_header, side_of};
use shape_grid::Grid;
use shape_space::{NoMemory, P2};
use std::alloc::Global;

// A weight, where the pixel is an object point.
fn weight(grid: &Grid<P2>, y: usize, x: usize, w: u8) -> u8
    requires y { y ≤ most_coordinate }
    requires x { x ≤ most_coordinate }
    ensures value { result ≡ weight grid.now y x w }
    ensures most { result ≤ w }
{
    let p = P2 {
        x: x as i32,
        y: y as i32,
    };
    if grid.has(p) { w } else { 0 }
}

// The byte of eight pixels of a row.
fn eight(grid: &Grid<P2>, y: usize, x: usize) -> u8
    requires y { y ≤ most_flat }
    requires x { x ≤ most_flat }
    ensures { result ≡ eight grid.now y x }
{
    let low = weight(grid, y, x + 6, 2) + weight(grid, y, x + 7, 1);
    let low = weight(grid, y, x + 4, 8) + (weight(grid, y, x + 5, 4) + low);
    let low = weight(grid, y, x + 2, 32) + (weight(grid, y, x + 3, 16) + low);
    weight(grid, y, x, 128) + (weight(grid, y, x + 1, 64) + low)
}

// Puts the bytes of a row.
fn put_row(grid: &Grid<P2>, y: usize, out: &mut Vec<u8>) -> Result<(), NoMemory>
    requires { y ≤ most_flat }
    ensures { OnOk result (out.new.items ≡ out.old.items ++ row grid.now y) }
{
    let count = (side_of(grid, 0) + 7) / 8;
    for k in 0..count {
        out.push(eight(grid, y, 8 * k))?;
    }
    Ok(())
}

// Puts the bytes of all rows.
fn put_rows(grid: &Grid<P2>, out: &mut Vec<u8>) -> Result<(), NoMemory>
    ensures { OnOk result (out.new.items
        ≡ out.old.items ++ flat_map (row grid.now) (range_with_len 0 (side grid.now.sides 1))) }
{
    let height = side_of(grid, 1);
    for y in 0..height {
        put_row(grid, y, out)?;
    }
    Ok(())
}

/// The raw PBM.
pub(crate) fn bits(alloc: Global, grid: &Grid<P2>) -> Result<Vec<u8>, NoMemory>
    ensures { IfOk result (λ v. v.items ≡ pbm grid.now) }
{
    let mut out = Vec::new(alloc);
    put_header(b"P4", side_of(grid, 0), side_of(grid, 1), &mut out)?;
    put_rows(grid, &mut out)?;
    Ok(out)
}
