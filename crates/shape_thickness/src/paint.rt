//! Balls of points, painted row by row: in each row they are a stretch of places.
//! What is painted before, and what the numbers mean, belongs elsewhere.
ghost use Rattle.std.specs.Prelude.{◌≡◌, ◌⊎◌, ◌+◌, ◌*◌, ◌<◌, ◌≤◌, ◌↔◌, ℕ, ℤ, pos, ◌+ℤ◌, ◌-ℤ◌, ◌≤ℤ◌, ◌<ℤ◌, nat_abs, IsTrue, length, true};
ghost use Rattle.shape_terms.specs.Limits.{most_coordinate};
ghost use Rattle.shape_terms.specs.Points.{coordinate, sides_of, in_box, box_count, raster_number, raster_point, squared_distance};
ghost use Rattle.shape_thickness.specs.Painting.{IsPainted, IsNearPlace, IsNearRow};

use crate::canvas::Canvas;
use shape_space::{Point, Sides, squared_distance};
use shape_window::{around, point_of, reach_of};

// A stretch of a row: how many places are before it, and how many up to its end.
#[derive(Clone, Copy)]
struct Stretch {
    from: u32,
    to: u32,
}

// A root as a difference of coordinates.
fn step_of(root: u32) -> i32
    requires { root ≤ 65535 }
    ensures { result ≡ pos root }
{
    root as i32
}

// How far behind x the first coordinate is that is at most a reach before a centre.
fn first_of(centre: i32, x: i32, reach: i32) -> i32
    requires centre_low { pos 0 ≤ℤ centre }
    requires centre_high { centre ≤ℤ pos most_coordinate }
    requires low { pos 0 ≤ℤ x }
    requires high { x ≤ℤ pos most_coordinate }
    requires some { pos 0 ≤ℤ reach }
    requires most { reach ≤ℤ pos 65535 }
    ensures { result ≡ centre -ℤ reach -ℤ x }
{
    centre - reach - x
}

// How far behind x the coordinate is after the last one that is at most a reach behind a centre.
fn end_of(centre: i32, x: i32, reach: i32) -> i32
    requires centre_low { pos 0 ≤ℤ centre }
    requires centre_high { centre ≤ℤ pos most_coordinate }
    requires low { pos 0 ≤ℤ x }
    requires high { x ≤ℤ pos most_coordinate }
    requires some { pos 0 ≤ℤ reach }
    requires most { reach ≤ℤ pos 65535 }
    ensures { result ≡ centre +ℤ reach +ℤ pos 1 -ℤ x }
{
    centre + reach + 1 - x
}

// A coordinate as a number of places of a row: below the first it is 0, and past the last it is their number.
fn placed(v: i32, width: i32) -> u32
    requires { pos 0 ≤ℤ width }
    ensures most { result ≤ nat_abs width }
    ensures from { (t : ℕ) → t < nat_abs width → (result ≤ t) ↔ (v ≤ℤ pos t) }
    ensures to { (t : ℕ) → t < nat_abs width → (t < result) ↔ (pos t <ℤ v) }
{
    if v < 0 {
        0
    } else if v > width {
        width as u32
    } else {
        v as u32
    }
}

// The coordinates from x on, so many, whose squares of distances to a centre are at most `rest`.
fn cut_row(centre: i32, x: i32, width: i32, rest: u32) -> Stretch
    requires centre_low { pos 0 ≤ℤ centre }
    requires centre_high { centre ≤ℤ pos most_coordinate }
    requires low { pos 0 ≤ℤ x }
    requires high { x ≤ℤ pos most_coordinate }
    requires some { pos 0 ≤ℤ width }
    ensures start { result.from ≤ nat_abs width }
    ensures within { result.to ≤ nat_abs width }
    ensures exactly { (t : ℕ) → t < nat_abs width → ((result.from ≤ t) × (t < result.to))
        ↔ (nat_abs (centre -ℤ (x +ℤ pos t)) * nat_abs (centre -ℤ (x +ℤ pos t)) ≤ rest) }
{
    let reach = step_of(rest.isqrt());
    Stretch {
        from: placed(first_of(centre, x, reach), width),
        to: placed(end_of(centre, x, reach), width),
    }
}

// Paints the places of a row that are near enough to the centre: from that of q on, so many.
fn paint_row<P: Point>(canvas: &mut Canvas, sides: &Sides<P>, c: P, s: u32, q: P, width: i32)
    requires c_in { IsTrue (in_box (sides_of (P.coords sides.now.lengths)) (P.coords c)) }
    requires q_in { IsTrue (in_box (sides_of (P.coords sides.now.lengths)) (P.coords q)) }
    requires some { pos 0 ≤ℤ width }
    requires within { (coordinate (P.coords q) 0 +ℤ width)
        ≤ℤ coordinate (P.coords sides.now.lengths) 0 }
    requires filled { length canvas.old ≡ box_count (sides_of (P.coords sides.now.lengths)) }
    ensures { IsPainted (IsNearPlace (sides_of (P.coords sides.now.lengths)) (P.coords c) s)
        (IsNearRow (sides_of (P.coords sides.now.lengths)) (P.coords c) s (P.coords q) (nat_abs width))
        s canvas.old canvas.new }
{
    let rest = squared_distance(c, q.with(0, c.coord(0)));
    if rest < s as u64 {
        let cut = cut_row(c.coord(0), q.coord(0), width, s - 1 - rest as u32);
        let i = sides.raster(q);
        canvas.paint(i + cut.from, i + cut.to, s);
    }
}

/// Paints the bare places of the box whose points are nearer to c than the squared distance. How many rows that took is told.
pub(crate) fn paint_ball<P: Point>(canvas: &mut Canvas, sides: &Sides<P>, c: P, s: u32) -> u32
    requires c_in { IsTrue (in_box (sides_of (P.coords sides.now.lengths)) (P.coords c)) }
    requires filled { length canvas.old ≡ box_count (sides_of (P.coords sides.now.lengths)) }
    ensures { IsPainted (IsNearPlace (sides_of (P.coords sides.now.lengths)) (P.coords c) s)
        (IsNearPlace (sides_of (P.coords sides.now.lengths)) (P.coords c) s)
        s canvas.old canvas.new }
{
    let window = around(sides, c, reach_of(s as u64));
    let width = window.counts.side(0);
    let rows = window.counts.count() / width as u32;
    for r in 0..rows {
        let q = point_of(&window, r * width as u32);
        paint_row(canvas, sides, c, s, q, width);
    }
    rows
}
