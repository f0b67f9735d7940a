//! Whether a standard line holds a run of a corner path.
//! Products are taken in 128 bits, so that no coefficient is too great.
ghost use Rattle.std.specs.Prelude.{◌≡◌, ◌⊎◌, ◌+◌, ◌*◌, ◌<◌, ◌≤◌, ◌^◌, ◌↔◌, ◌*ℤ◌, ◌+ℤ◌, ◌-ℤ◌, ◌≤ℤ◌, ◌<ℤ◌, ℕ, IsTrue, pos, nat_abs, unsigned_abs};
ghost use Rattle.shape_terms.specs.Limits.{most_flat, most_round};
ghost use Rattle.shape_terms.specs.Covers.{arc};
ghost use Rattle.edge_terms.specs.Corners.{IsSign, place_of, IsCorner, across_by, down_by};
ghost use Rattle.edge_terms.specs.EdgeStraight.{HoldsCorner, IsStandardFor};
ghost use Rattle.shape_crack.specs.Terms.{point_of};
ghost use Rattle.judge_edges.specs.Lines.{standard_of, IsNatural};
ghost use Rattle.judge_edges.specs.Steps.{step_from, IsProper};

use crate::arc::Arc;
use crate::corners::Corners;
use crate::standard::Standard;
use shape_space::P2;

// A difference of two coordinates.
fn minus(a: i32, b: i32) -> i32
    requires a_low { pos 0 ≤ℤ a }
    requires a_high { a ≤ℤ pos most_flat }
    requires b_low { pos 0 ≤ℤ b }
    requires b_high { b ≤ℤ pos most_flat }
    ensures value { result ≡ a -ℤ b }
    ensures small { unsigned_abs result ≤ most_flat }
{
    a - b
}

// The step from one corner to another.
fn difference(q: P2, p: P2) -> P2
    requires q_corner { IsCorner (point_of q) }
    requires p_corner { IsCorner (point_of p) }
    ensures x { result.x ≡ q.x -ℤ p.x }
    ensures y { result.y ≡ q.y -ℤ p.y }
    ensures x_small { unsigned_abs result.x ≤ most_flat }
    ensures y_small { unsigned_abs result.y ≤ most_flat }
{
    P2 {
        x: minus(q.x, p.x),
        y: minus(q.y, p.y),
    }
}

/// The step from a place of a path to the next.
pub(crate) fn step_on(path: &Corners, i: u32) -> P2
    requires { i < 2 * most_round }
    ensures value { point_of result ≡ step_from path.now i }
    ensures x_small { unsigned_abs result.x ≤ most_flat }
    ensures y_small { unsigned_abs result.y ≤ most_flat }
{
    let p = path.corner_on(i);
    difference(path.corner_on(i + 1), p)
}

// Whether a number is a sign.
fn is_sign(z: i8) -> bool
    ensures { IsTrue result ↔ IsSign z }
{
    z == 1 || z == -1
}

// Whether the signs are signs and one coefficient is not 0.
fn is_proper(line: &Standard) -> bool
    requires { IsNatural line.now }
    ensures { IsTrue result ↔ IsProper line.now }
{
    is_sign(line.h) && is_sign(line.v) && (line.a > 0 || line.c > 0)
}

// A coordinate by a sign.
fn signed(sign: i8, x: i32) -> i64
    requires sign { IsSign sign }
    requires low { pos 0 ≤ℤ x }
    requires high { x ≤ℤ pos most_flat }
    ensures value { result ≡ sign *ℤ x }
    ensures small { unsigned_abs result ≤ most_flat }
{
    if sign == 1 { x as i64 } else { -(x as i64) }
}

// A number, taken as often as a coefficient says.
fn weighed(weight: u64, x: i64) -> i128
    requires { unsigned_abs x ≤ most_flat }
    ensures value { result ≡ pos weight *ℤ x }
    ensures small { unsigned_abs result ≤ 2 ^ 97 }
{
    weight as i128 * x as i128
}

// A difference of two products.
fn excess(x: i128, y: i128) -> i128
    requires x_small { unsigned_abs x ≤ 2 ^ 97 }
    requires y_small { unsigned_abs y ≤ 2 ^ 97 }
    ensures value { result ≡ x -ℤ y }
{
    x - y
}

// Whether a value lies in the strip of two coefficients from a lower bound on.
fn is_between(value: i128, mu: i64, a: u64, c: u64) -> bool
    ensures { IsTrue result ↔ (mu ≤ℤ value) × (value <ℤ (mu +ℤ (pos a +ℤ pos c))) }
{
    let low = mu as i128;
    low <= value && value < low + (a as i128 + c as i128)
}

// Whether a proper line holds a corner.
fn holds_corner(line: &Standard, p: P2) -> bool
    requires proper { IsProper line.now }
    requires corner { IsCorner (point_of p) }
    ensures { IsTrue result ↔ HoldsCorner (standard_of line.now) (point_of p) }
{
    let a = line.a.unsigned_abs();
    let c = line.c.unsigned_abs();
    let value = excess(
        weighed(a, signed(line.h, p.x)),
        weighed(c, signed(line.v, p.y)),
    );
    is_between(value, line.mu, a, c)
}

// Whether a step is one across by the sign `h`, or one down by the sign `v`.
fn goes(step: P2, h: i8, v: i8) -> bool
    ensures { IsTrue result ↔ (point_of step ≡ across_by h) ⊎ (point_of step ≡ down_by v) }
{
    step.x == h as i32 && step.y == 0 || step.x == 0 && step.y == v as i32
}

// Whether a proper line holds each corner from place to place.
fn holds_all(path: &Corners, first: u32, last: u32, line: &Standard) -> bool
    requires proper { IsProper line.now }
    requires low { last < 2 * most_round }
    ensures { IsTrue result ↔ ((i : ℕ) → first ≤ i → i ≤ last
        → HoldsCorner (standard_of line.now) (place_of path.now i)) }
{
    for i in first..last + 1 {
        if !holds_corner(line, path.corner_on(i)) {
            return false;
        }
    }
    true
}

// Whether each step from place to place goes by the signs of a line.
fn goes_all(path: &Corners, first: u32, last: u32, line: &Standard) -> bool
    requires low { last < 2 * most_round }
    ensures { IsTrue result ↔ ((i : ℕ) → first ≤ i → i < last
        → (step_from path.now i ≡ across_by line.now.h)
        ⊎ (step_from path.now i ≡ down_by line.now.v)) }
{
    for i in first..last {
        if !goes(step_on(path, i), line.h, line.v) {
            return false;
        }
    }
    true
}

/// Whether the line of an arc is a standard line that holds the run from its first place to its last.
pub(crate) fn holds_arc(path: &Corners, next: &Arc) -> bool
    requires order { next.now.first ≤ next.now.last }
    requires low { next.now.last < 2 * most_round }
    ensures { IsTrue result ↔ IsStandardFor (arc path.now next.now.first next.now.last)
        (standard_of next.now.line) }
{
    if !is_proper(&next.line) {
        return false;
    }
    if !goes_all(path, next.first, next.last, &next.line) {
        return false;
    }
    holds_all(path, next.first, next.last, &next.line)
}
