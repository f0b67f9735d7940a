//! Bounds of a slope, and a slope between a lower and an upper one.
//! Which slope between them is chosen may change here.
ghost use Rattle.std.specs.Prelude.{◌≡◌, ℕ, ◌≤◌, ◌+◌, ◌*◌, ◌↔◌, IsTrue, pos, neg_ℤ, ◌-ℤ◌, ◌*ℤ◌, ◌≤ℤ◌, ◌<ℤ◌, unsigned_abs};
ghost use Rattle.shape_terms.specs.Limits.{plane_row, plane_span};
ghost use Rattle.shape_plane.specs.Rows.{Meets};
ghost use Rattle.shape_plane.specs.Bounds.{IsBounded, IsBetween};

use crate::products::{product, size};
use shape_space::Frac;

/// The inequality `x*p + z*q < 0` on a slope p/q.
#[derive(Clone, Copy)]
pub struct Bound {
    pub x: i64,
    pub z: i64,
}

/// Whether a bound is tighter than one with a coefficient of the same sign.
pub fn is_tighter(new: Bound, old: Bound) -> bool
    requires new { IsBounded new }
    requires old { IsBounded old }
    ensures { IsTrue result
        ↔ (old.z *ℤ pos (unsigned_abs new.x)) <ℤ (new.z *ℤ pos (unsigned_abs old.x)) }
{
    product(old.z, size(new.x)) < product(new.z, size(old.x))
}

// The difference of two products.
fn difference(a: i64, b: i64) -> i64
    requires a_small { unsigned_abs a ≤ plane_span * (2 * plane_row) }
    requires b_small { unsigned_abs b ≤ plane_span * (2 * plane_row) }
    ensures { result ≡ a -ℤ b }
{
    a - b
}

/// How far a lower and an upper bound of a slope overlap: they leave room where this is below 0.
pub fn overlap(lower: Bound, upper: Bound) -> i64
    requires lower { IsBounded lower }
    requires upper { IsBounded upper }
    ensures value { result ≡ lower.z *ℤ upper.x -ℤ upper.z *ℤ lower.x }
    ensures size { (m n : ℕ) → unsigned_abs lower.z ≤ n → unsigned_abs upper.x ≤ m
        → unsigned_abs upper.z ≤ n → unsigned_abs lower.x ≤ m
        → unsigned_abs result ≤ n * m + n * m }
{
    difference(product(lower.z, upper.x), product(upper.z, lower.x))
}

/// Whether some slope meets both inequalities, of which the first bounds it from below and the second from above.
pub fn leaves_room(lower: Bound, upper: Bound) -> bool
    requires lower { IsBounded lower }
    requires upper { IsBounded upper }
    ensures { IsTrue result ↔ (lower.z *ℤ upper.x) <ℤ (upper.z *ℤ lower.x) }
{
    overlap(lower, upper) < 0
}

// The opposite of a small number.
fn opposite(a: i64) -> i64
    requires { unsigned_abs a ≤ plane_span }
    ensures { result ≡ neg_ℤ a }
{
    -a
}

// A fraction strictly between two others: 0 where it lies there, else the mediant.
fn choose(lo: &Frac, hi: &Frac) -> Frac
    requires lo_den { pos 1 ≤ℤ lo.now.den }
    requires hi_den { pos 1 ≤ℤ hi.now.den }
    requires lo_num_small { unsigned_abs lo.now.num ≤ plane_span }
    requires lo_den_small { unsigned_abs lo.now.den ≤ plane_row }
    requires hi_num_small { unsigned_abs hi.now.num ≤ plane_span }
    requires hi_den_small { unsigned_abs hi.now.den ≤ plane_row }
    requires less { (lo.now.num *ℤ hi.now.den) <ℤ (hi.now.num *ℤ lo.now.den) }
    ensures { IsBetween lo.now hi.now result }
{
    if lo.num < 0 && hi.num > 0 {
        Frac { num: 0, den: 1 }
    } else {
        Frac::between(lo, hi)
    }
}

/// The coefficient of a bound with the other sign.
pub fn turned(b: Bound) -> i64
    requires { IsBounded b }
    ensures { result ≡ neg_ℤ b.x }
{
    -b.x
}

// A lower bound as a fraction.
fn lower_end(b: Bound) -> Frac
    requires falls { b.x <ℤ pos 0 }
    requires bounded { IsBounded b }
    ensures num { result.num ≡ b.z }
    ensures den { result.den ≡ neg_ℤ b.x }
{
    Frac {
        num: b.z,
        den: turned(b),
    }
}

// An upper bound as a fraction.
fn upper_end(b: Bound) -> Frac
    requires { IsBounded b }
    ensures num { result.num ≡ neg_ℤ b.z }
    ensures den { result.den ≡ b.x }
{
    Frac {
        num: opposite(b.z),
        den: b.x,
    }
}

/// A slope that meets both inequalities, where they leave room.
pub fn slope_inside(lower: Bound, upper: Bound) -> Frac
    requires falls { lower.x <ℤ pos 0 }
    requires rises { pos 0 <ℤ upper.x }
    requires lower { IsBounded lower }
    requires upper { IsBounded upper }
    requires room { (lower.z *ℤ upper.x) <ℤ (upper.z *ℤ lower.x) }
    ensures den { pos 1 ≤ℤ result.den }
    ensures meets_lower { Meets result.num result.den lower.x lower.z }
    ensures meets_upper { Meets result.num result.den upper.x upper.z }
    ensures num_small { unsigned_abs result.num ≤ unsigned_abs lower.z + unsigned_abs upper.z }
    ensures den_small { unsigned_abs result.den ≤ unsigned_abs lower.x + unsigned_abs upper.x }
{
    choose(&lower_end(lower), &upper_end(upper))
}
