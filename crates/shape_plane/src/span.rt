//! The greatest lower and the least upper bound of the second slope, once the first is chosen.
//! Bounds are compared as fractions, by cross products.
ghost use Rattle.std.specs.Prelude.{◌≡◌, ◌<◌, ◌≤◌, ◌↔◌, IsTrue, ◌<ℤ◌, ◌*ℤ◌, pos, length, unsigned_abs};
ghost use Rattle.shape_terms.specs.Limits.{plane_gap, plane_span};
ghost use Rattle.shape_plane.specs.Rows.{row_at, level as level_of, AreSmall, IsSteep, IsSystem};
ghost use Rattle.shape_plane.specs.Spans.{IsSpan, IsSmallSlope, IsTightened, IsTight};

use crate::bound::{Bound, is_tighter};
use crate::products::combine;
use crate::row::{Row, read};
use shape_space::Frac;

/// The places of the rows that give a lower and an upper bound of the second slope.
#[derive(Clone, Copy)]
pub struct Span {
    pub lower: usize,
    pub upper: usize,
}

/// What a row in which the second slope stands says of it.
pub fn bound_of(rows: &[Row], f: Frac, i: usize) -> Bound
    requires place { i < length rows.now }
    requires steep { IsSteep (row_at rows.now i) }
    requires slope { IsSmallSlope f }
    ensures x { result.x ≡ (row_at rows.now i).y }
    ensures z { result.z ≡ level_of f.num f.den (row_at rows.now i) }
    ensures x_small { unsigned_abs result.x ≤ plane_gap }
    ensures z_small { unsigned_abs result.z ≤ plane_span }
{
    let r = read(rows, i);
    Bound {
        x: r.y,
        z: combine(r.x, f.num, r.z, f.den),
    }
}

// Whether a row bounds the second slope more tightly than one with a coefficient of the same sign.
fn is_tighter_row(rows: &[Row], f: Frac, j: usize, i: usize) -> bool
    requires first { i < length rows.now }
    requires second { j < length rows.now }
    requires first_steep { IsSteep (row_at rows.now i) }
    requires second_steep { IsSteep (row_at rows.now j) }
    requires slope { IsSmallSlope f }
    ensures { IsTrue result
        ↔ (level_of f.num f.den (row_at rows.now i) *ℤ pos (unsigned_abs (row_at rows.now j).y)) <ℤ
        (level_of f.num f.den (row_at rows.now j) *ℤ pos (unsigned_abs (row_at rows.now i).y)) }
{
    let old = bound_of(rows, f, i);
    let new = bound_of(rows, f, j);
    is_tighter(new, old)
}

// Whether the second slope stands in a row with a negative coefficient.
fn is_lower(rows: &[Row], j: usize) -> bool
    requires { j < length rows.now }
    ensures { IsTrue result ↔ (row_at rows.now j).y <ℤ pos 0 }
{
    let r = read(rows, j);
    r.y < 0
}

// Whether the second slope stands in a row with a positive coefficient.
fn is_upper(rows: &[Row], j: usize) -> bool
    requires { j < length rows.now }
    ensures { IsTrue result ↔ pos 0 <ℤ (row_at rows.now j).y }
{
    let r = read(rows, j);
    r.y > 0
}

// The span without the second slopes that do not meet a row.
fn tighten(rows: &[Row], f: Frac, j: usize, old: Span) -> Span
    requires place { j < length rows.now }
    requires pair { 4 ≤ j }
    requires small { AreSmall rows.now }
    requires slope { IsSmallSlope f }
    requires span { IsSpan rows.now old }
    ensures { IsTightened rows.now f old j result }
{
    if is_lower(rows, j) {
        if is_tighter_row(rows, f, j, old.lower) {
            return Span {
                lower: j,
                upper: old.upper,
            };
        }
        return old;
    }
    if is_upper(rows, j) {
        if is_tighter_row(rows, f, j, old.upper) {
            return Span {
                lower: old.lower,
                upper: j,
            };
        }
        return old;
    }
    old
}

/// The bounds of the second slope by all rows.
pub fn second_slopes(rows: &[Row], f: Frac) -> Span
    requires system { IsSystem rows.now }
    requires slope { IsSmallSlope f }
    ensures { IsTight rows.now f (length rows.now) result }
{
    let mut best = Span { lower: 2, upper: 3 };
    for j in 4..rows.len() {
        best = tighten(rows, f, j, best);
    }
    best
}
