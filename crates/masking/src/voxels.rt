//! A volume as raw bytes, one for each voxel in raster order.
//! What byte a voxel has is told in `specs/Pictures.antt`.
ghost use Rattle.std.specs.Prelude.{◌≡◌, IfOk};
ghost use Rattle.masking.specs.Pictures.{shade, voxels};

use shape_grid::Grid;
use shape_space::{NoMemory, P3};
use std::alloc::Global;

// The byte of a voxel.
fn shade(object: bool) -> u8
    ensures { result ≡ shade object }
{
    if object { 255 } else { 0 }
}

/// The bytes of all voxels.
pub(crate) fn voxels(alloc: Global, grid: &Grid<P3>) -> Result<Vec<u8>, NoMemory>
    ensures { IfOk result (λ v. v.items ≡ voxels grid.now) }
{
    let sides = grid.sides();
    let mut out = Vec::new(alloc);
    for i in 0..sides.count() {
        out.push(shade(grid.has(sides.unraster(i))))?;
    }
    Ok(out)
}
