//! Painting a ball on a picture.
//! How the points that it covers are found is a matter of this file alone.
ghost use Rattle.std.specs.Prelude.{◌≡◌, ◌<◌, ◌≤◌, ◌+◌, ◌*◌, ◌-◌, ◌/◌, ◌-ℤ◌, ◌≤ℤ◌, ℕ, if◌then◌else◌, IsTrue, negsuc, pos, nat_abs, slice_index};
ghost use Rattle.shape_terms.specs.Limits.{most_flat, most_coordinate};
ghost use Rattle.shape_terms.specs.Points.{in_box, box_count};
ghost use Rattle.shape_terms.specs.Pictures.{with_value};
ghost use Rattle.shape_terms.specs.FramedBox.{IsWithin};
ghost use Rattle.shape_grid.specs.Balls.{covers};
ghost use Rattle.shape_grid.specs.Painting.{painted};

use crate::ball::Ball;
use crate::grid::Grid;
use shape_space::{Point, squared_distance};

// Whether the ball covers a point.
fn covers<P: Point>(ball: &Ball<P>, p: P) -> bool
    requires { IsWithin (negsuc 0) (pos most_coordinate) (P.coords p) }
    ensures { result ≡ covers (P.coords ball.now.centre) ball.now.radius (P.coords p) }
{
    let radius = ball.radius as u64;
    squared_distance(p, ball.centre) <= radius * radius
}

// Gives a point of the box the ball's value, if the ball covers it.
fn paint_point<P: Point>(grid: &mut Grid<P>, ball: &Ball<P>, p: P)
    requires inside { IsTrue (in_box grid.old.sides (P.coords p)) }
    requires near { IsWithin (negsuc 0) (pos most_coordinate) (P.coords p) }
    ensures { grid.new
        ≡ (if covers (P.coords ball.now.centre) ball.now.radius (P.coords p)
        then with_value grid.old (P.coords p) ball.now.object else grid.old) }
{
    if covers(ball, p) {
        if ball.object {
            grid.set(p);
        } else {
            grid.clear(p);
        }
    }
}

// The first place of a row that a ball may cover, and the first behind all of them. Its centre is at a place along the row.
fn reach(at: i32, radius: u32, width: u32) -> (u32, u32)
    requires low { pos 0 ≤ℤ at }
    requires high { at ≤ℤ pos (most_flat - 1) }
    requires small { radius ≤ most_flat / 4 + 1 }
    ensures ordered { result.0 ≤ result.1 }
    ensures within { result.1 ≤ width }
    ensures all { (x : ℕ) → x < width → nat_abs (pos x -ℤ at) ≤ radius
        → (result.0 ≤ x) × (x < result.1) }
{
    let at = at as u32;
    let low = at.saturating_sub(radius);
    let high = at + radius + 1;
    (low.min(width), high.min(width))
}

// The number of points of a row of the box.
fn width<P: Point>(grid: &Grid<P>) -> u32
    ensures value { result ≡ slice_index grid.now.sides 0 }
    ensures some { 1 ≤ result }
    ensures most { result ≤ most_flat }
{
    grid.sides().side(0) as u32
}

// Gives each point of a row of the box that the ball covers the ball's value.
fn paint_row<P: Point>(grid: &mut Grid<P>, ball: &Ball<P>, row: u32)
    requires { (row + 1) * slice_index grid.old.sides 0 ≤ box_count grid.old.sides }
    ensures { grid.new ≡ painted grid.old
        (P.coords ball.now.centre) ball.now.radius ball.now.object
        (row * slice_index grid.old.sides 0) ((row + 1) * slice_index grid.old.sides 0) }
{
    let width = width(grid);
    let first = grid.sides().unraster(row * width);
    let at = ball.centre.coord(0);
    if !covers(ball, first.with(0, at)) {
        return;
    }
    let (low, high) = reach(at, ball.radius, width);
    for x in low..high {
        paint_point(grid, ball, first.with(0, x as i32));
    }
}

/// Gives each point that the ball covers the ball's value.
///
/// Of each row it looks at the points that are no farther along the row than the radius, and at none of a row
/// whose nearest point to the centre is not covered.
pub fn paint<P: Point>(grid: &mut Grid<P>, ball: &Ball<P>)
    ensures { grid.new ≡ painted grid.old
        (P.coords ball.now.centre) ball.now.radius ball.now.object 0 (box_count grid.old.sides) }
{
    for row in 0..grid.sides().count() / width(grid) {
        paint_row(grid, ball, row);
    }
}
