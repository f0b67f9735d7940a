//! Points, pictures and texts that several tests share.
//! No test stands here.
use shape_grid::Grid;
use shape_space::{P2, Point, Sides};
use std::alloc::{AllocError, Global};
use std::test::Fail;

// A point of the plane.
pub(crate) const fn at(x: i32, y: i32) -> P2 {
    P2 { y, x }
}

// The picture with object at the places of the `#`, in raster order.
pub(crate) fn of_marks<P: Point>(alloc: Global, lengths: P, marks: &[u8]) -> Result<Grid<P>, Fail> {
    let Some(sides) = Sides::try_new(lengths) else {
        return Err(Fail::from(AllocError));
    };
    let mut grid = Grid::new(alloc, sides)?;
    let mut i = 0u32;
    for mark in marks {
        if *mark == b'#' && i < grid.sides().count() {
            grid.set_number(i);
        }
        i = i.saturating_add(1);
    }
    Ok(grid)
}

// The full picture of 3 by 3 points.
pub(crate) fn square(alloc: Global) -> Result<Grid<P2>, Fail> {
    of_marks(alloc, at(3, 3), b"#########")
}

// Puts the coordinates of a point behind a text, and a word behind them.
pub(crate) fn put_point(text: &mut String, p: P2, behind: &str) -> Result<(), Fail> {
    Ok(write!(text, " {} {}{behind}", p.x, p.y)?)
}
