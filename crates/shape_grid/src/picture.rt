//! The picture of a seed: a box with equal sides, in which the balls are painted in turn.
//! How many balls there are and which of them are background is said here and in `specs/Balls.antt`.
ghost use Rattle.std.specs.Prelude.{◌≡◌, ◌≤◌, pos, ◌≤ℤ◌, IfOk, map};
ghost use Rattle.std.specs.List.{range_with_len};
ghost use Rattle.shape_terms.specs.Points.{sides_of};
ghost use Rattle.shape_grid.specs.Balls.{ball_picture};

use crate::ball::drawn_ball;
use crate::draws::Draws;
use crate::grid::Grid;
use crate::paint::paint;
use shape_space::{NoMemory, Point, Sides};
use std::alloc::Global;

// The box whose sides are all `side`.
fn equal_sides<P: Point>(side: u32) -> Sides<P>
    requires some { 1 ≤ side }
    requires most { pos side ≤ℤ P.MAX_SIDE }
    ensures { sides_of (P.coords result.lengths) ≡ map (λ _. side) (range_with_len 0 P.DIM) }
{
    let mut lengths = P::origin();
    for k in 0..P::DIM {
        lengths = lengths.with(k, side as i32);
    }
    match Sides::try_new(lengths) {
        Some(sides) => sides,
        None => unreachable!(),
    }
}

/// The picture of a seed whose sides are all `side`, of which there are as many as a point has axes.
///
/// It takes memory for the grid.
pub fn make_picture<P: Point>(alloc: Global, seed: u32, side: u32) -> Result<Grid<P>, NoMemory>
    requires some { 1 ≤ side }
    requires most { pos side ≤ℤ P.MAX_SIDE }
    ensures picture { IfOk result (λ g. g ≡ ball_picture P.DIM seed side) }
{
    let mut grid = Grid::new(alloc, equal_sides(side))?;
    let mut draws = Draws { state: seed };
    for k in 0..1 + side / 8 {
        let ball = drawn_ball(&mut draws, side, k % 3 != 2);
        paint(&mut grid, &ball);
    }
    Ok(grid)
}
