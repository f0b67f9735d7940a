//! Steps of a contour, from a point to the next.
//! What a step weighs along a line is told in `runs`.
ghost use Rattle.std.specs.Prelude.{◌≡◌, ◌<◌, ◌≤◌, ℤ, pos, nat_abs, ◌-ℤ◌, length};
ghost use Rattle.measure_terms.specs.Lengths.{near_step, step as step_of, step_at};
ghost use Rattle.bordering.specs.Told.{flat, flats, step_told};

use crate::step::Step;
use shape_space::P2;

// How much a coordinate changes.
fn change(from: i32, to: i32) -> i64
    ensures { result ≡ to -ℤ from }
{
    to as i64 - from as i64
}

// The step with these changes, and one that stays where it goes further than to a neighbour.
fn near_step(x: i64, y: i64) -> Step
    ensures { step_told result ≡ near_step x y }
{
    if x.unsigned_abs() <= 1 && y.unsigned_abs() <= 1 {
        Step { x, y }
    } else {
        Step { x: 0, y: 0 }
    }
}

// The step from a point to another.
fn step(p: P2, q: P2) -> Step
    ensures { step_told result ≡ step_of (flat p) (flat q) }
{
    near_step(change(p.x, q.x), change(p.y, q.y))
}

/// The step of a contour from a place to the next.
pub(crate) fn step_at(points: &[P2], i: usize) -> Step
    requires { i < length points.now }
    ensures { step_told result ≡ step_at (flats points.now) i }
{
    step(points[i], points[(i + 1) % points.len()])
}
