//! A picture that several tests share.
//! No test stands here.
ghost use Rattle.std.specs.Prelude.{◌≤◌};

use shape_grid::Grid;
use shape_space::{Point, Sides};
use std::alloc::{AllocError, Global};
use std::test::Fail;

// The picture of which every point is object whose raster number is a multiple of a step.
pub(crate) fn stepped<P: Point>(alloc: Global, sides: P, step: u32) -> Result<Grid<P>, Fail>
    requires { 1 ≤ step }
{
    let Some(sides) = Sides::try_new(sides) else {
        return Err(Fail::from(AllocError));
    };
    let mut grid = Grid::new(alloc, sides)?;
    for i in 0..sides.count() {
        let p = sides.unraster(i);
        if i % step == 0 && grid.sides().inside(p) {
            grid.set(p);
        }
    }
    Ok(grid)
}
