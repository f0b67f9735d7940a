//! Slopes that meet all rows, or two combinations that exclude all slopes.
//! The second slope is eliminated first; then bounds of the first are left.
ghost use Rattle.std.specs.Prelude.{◌*◌, ◌≡◌, ◌≤◌, ◌↔◌, IsTrue, unsigned_abs, ◌<ℤ◌, ◌≤ℤ◌, ◌*ℤ◌, pos, length};
ghost use Rattle.shape_terms.specs.Limits.{plane_gap, plane_span};
ghost use Rattle.shape_plane.specs.Rows.{row_at, level as level_of, IsSystem};
ghost use Rattle.shape_plane.specs.Ranges.{IsInside, IsRange, IsClashing, IsWhole, HasWhole};
ghost use Rattle.shape_plane.specs.Combinations.{IsCombination};
ghost use Rattle.shape_plane.specs.Spans.{IsSpan, IsAmid, IsSmallSlope};
ghost use Rattle.shape_plane.specs.Solutions.{IsSolution, IsExcluded, IsElimination};

use crate::bound::{leaves_room, overlap, slope_inside, turned};
use crate::combination::Combination;
use crate::products::product;
use crate::range::{Narrowed, Range};
use crate::row::Row;
use crate::span::{Span, bound_of, second_slopes};
use shape_space::Frac;

/// The slopes a/c and b/c.
#[derive(Clone, Copy)]
pub struct Solution {
    pub a: i64,
    pub b: i64,
    pub c: i64,
}

/// A combination, taken so often.
#[derive(Clone, Copy)]
pub struct Multiple {
    pub combination: Combination,
    pub times: i64,
}

/// Combinations that no slope meets, each so often that the first slope is gone, and what is left.
#[derive(Clone, Copy)]
pub struct Excluded {
    pub first: Multiple,
    pub second: Multiple,
    pub rest: i64,
}

/// Slopes that meet all rows, or why there are none.
#[derive(Clone, Copy)]
pub enum Elimination {
    Slopes(Solution),
    Clash(Excluded),
}

// A second slope, at a first slope that leaves room.
fn second_slope(rows: &[Row], f: Frac, s: Span) -> Frac
    requires system { IsSystem rows.now }
    requires slope { IsSmallSlope f }
    requires span { IsSpan rows.now s }
    requires room { (level_of f.num f.den (row_at rows.now s.lower) *ℤ
        (row_at rows.now s.upper).y) <ℤ (level_of f.num f.den (row_at rows.now s.upper) *ℤ
        (row_at rows.now s.lower).y) }
    ensures amid { IsAmid rows.now f result.num result.den s }
    ensures den { pos 1 ≤ℤ result.den }
    ensures num_small { unsigned_abs result.num ≤ 2 * plane_span }
    ensures den_small { unsigned_abs result.den ≤ 2 * plane_gap }
{
    slope_inside(bound_of(rows, f, s.lower), bound_of(rows, f, s.upper))
}

// The slopes p/q and n/m over one denominator.
fn together(f: Frac, g: Frac) -> Solution
    requires slope { IsSmallSlope f }
    requires den_small { unsigned_abs g.den ≤ 2 * plane_gap }
    ensures a { result.a ≡ f.num *ℤ g.den }
    ensures b { result.b ≡ g.num }
    ensures c { result.c ≡ f.den *ℤ g.den }
{
    Solution {
        a: product(f.num, g.den),
        b: g.num,
        c: product(f.den, g.den),
    }
}

// The slopes that meet all rows, where the bounds of the first leave room.
fn slopes_within(rows: &[Row], r: Range) -> Solution
    requires system { IsSystem rows.now }
    requires whole { IsWhole rows.now (length rows.now) r }
    requires room { (r.lower.bound.z *ℤ r.upper.bound.x) <ℤ
        (r.upper.bound.z *ℤ r.lower.bound.x) }
    ensures { IsSolution rows.now result }
{
    let f = slope_inside(r.lower.bound, r.upper.bound);
    let s = second_slopes(rows, f);
    together(f, second_slope(rows, f, s))
}

// A single combination that nothing meets.
fn excluded_by_one(rows: &[Row], c: Combination) -> Excluded
    requires { IsClashing rows.now c }
    ensures { IsExcluded rows.now result }
{
    let _ = rows;
    Excluded {
        first: Multiple {
            combination: c,
            times: 1,
        },
        second: Multiple {
            combination: c,
            times: 0,
        },
        rest: c.bound.z,
    }
}

// Two bounds that leave no room.
fn excluded_by_two(rows: &[Row], r: Range) -> Excluded
    requires system { IsSystem rows.now }
    requires range { IsRange rows.now r }
    requires full { (r.upper.bound.z *ℤ r.lower.bound.x) ≤ℤ
        (r.lower.bound.z *ℤ r.upper.bound.x) }
    ensures { IsExcluded rows.now result }
{
    let _ = rows;
    Excluded {
        first: Multiple {
            combination: r.lower,
            times: r.upper.bound.x,
        },
        second: Multiple {
            combination: r.upper,
            times: turned(r.lower.bound),
        },
        rest: overlap(r.lower.bound, r.upper.bound),
    }
}

// The same where the bounds of the first slope are found.
fn decided(rows: &[Row], r: Range) -> Elimination
    requires system { IsSystem rows.now }
    requires whole { IsWhole rows.now (length rows.now) r }
    ensures { IsElimination rows.now result }
{
    if leaves_room(r.lower.bound, r.upper.bound) {
        Elimination::Slopes(slopes_within(rows, r))
    } else {
        Elimination::Clash(excluded_by_two(rows, r))
    }
}

/// Slopes that meet all rows, or combinations that exclude all slopes, where the first slopes that are left are known.
pub fn eliminate(rows: &[Row], first: Narrowed) -> Elimination
    requires system { IsSystem rows.now }
    requires whole { HasWhole rows.now (length rows.now) first }
    ensures { IsElimination rows.now result }
{
    match first {
        Narrowed::Clash(c) => Elimination::Clash(excluded_by_one(rows, c)),
        Narrowed::Room(r) => decided(rows, r),
    }
}
