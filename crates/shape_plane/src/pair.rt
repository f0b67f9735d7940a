//! Pairs of places of a list of points, and what they say of the slopes.
//! The second of the two axes beside the main one is no axis of the plane: points have the coordinate 0 there.
ghost use Rattle.std.specs.Prelude.{◌-◌, ◌≡◌, ◌<◌, ◌≤◌, pos, ◌-ℤ◌, ◌≤ℤ◌, length, map, unsigned_abs};
ghost use Rattle.shape_terms.specs.Limits.{most_flat};
ghost use Rattle.shape_terms.specs.Points.{coordinate};
ghost use Rattle.shape_terms.specs.Refutations.{point_at};
ghost use Rattle.shape_plane.specs.Rows.{IsSmall};
ghost use Rattle.shape_plane.specs.Pairs.{first_axis as first_of, second_axis as second_of, gap as gap_of, pair_row, IsPair, AreInside};

use crate::row::{Cause, Row};
use shape_space::Point;

/// Two places of a list of points: a proper line or plane that holds both has `a.(high - low) < a[axis]`.
#[derive(Clone, Copy, Debug, PartialEq, Eq)]
pub struct Pair {
    pub low: u32,
    pub high: u32,
}

/// The first of the two axes beside the main one.
pub fn first_axis(axis: usize) -> usize
    ensures value { result ≡ first_of axis }
    ensures other { result < 2 }
{
    if axis == 0 { 1 } else { 0 }
}

/// The second of them.
pub fn second_axis(axis: usize) -> usize
    ensures value { result ≡ second_of axis }
    ensures other { result < 3 }
{
    if axis < 2 { 2 } else { 1 }
}

// The coordinate on an axis of the point at a place, and 0 past the last axis.
fn coordinate_at<P: Point>(points: &[P], place: u32, k: usize) -> i32
    requires place { place < length points.now }
    requires inside { AreInside P.MAX_SIDE (map P.coords points.now) }
    ensures value { result ≡ coordinate (point_at (map P.coords points.now) place) k }
    ensures low { pos 0 ≤ℤ result }
    ensures high { result ≤ℤ (P.MAX_SIDE -ℤ pos 1) }
{
    if k < P::DIM {
        points[place as usize].coord(k)
    } else {
        0
    }
}

// How far apart two coordinates are.
fn minus(a: i32, b: i32) -> i64
    requires a_low { pos 0 ≤ℤ a }
    requires b_low { pos 0 ≤ℤ b }
    ensures value { result ≡ a -ℤ b }
{
    a as i64 - b as i64
}

// How far the high point of a pair lies from the low one on an axis.
fn gap<P: Point>(points: &[P], pair: Pair, k: usize) -> i64
    requires pair { IsPair (length points.now) pair }
    requires inside { AreInside P.MAX_SIDE (map P.coords points.now) }
    ensures value { result ≡ gap_of (map P.coords points.now) pair k }
    ensures small { pos (unsigned_abs result) ≤ℤ (P.MAX_SIDE -ℤ pos 1) }
    ensures flat { unsigned_abs result ≤ most_flat - 1 }
{
    minus(
        coordinate_at(points, pair.high, k),
        coordinate_at(points, pair.low, k),
    )
}

// A number less one.
fn less_one(a: i64) -> i64
    requires { unsigned_abs a ≤ most_flat - 1 }
    ensures { result ≡ a -ℤ pos 1 }
{
    a - 1
}

/// What a pair says of the slopes for an axis.
pub fn row_of<P: Point>(points: &[P], axis: usize, pair: Pair) -> Row
    requires axis { axis < P.DIM }
    requires pair { IsPair (length points.now) pair }
    requires inside { AreInside P.MAX_SIDE (map P.coords points.now) }
    ensures row { result ≡ pair_row axis (map P.coords points.now) pair }
    ensures small { IsSmall result }
{
    let x = gap(points, pair, first_axis(axis));
    let y = gap(points, pair, second_axis(axis));
    let z = gap(points, pair, axis);
    Row {
        x,
        y,
        z: less_one(z),
        cause: Cause::Gap(pair),
    }
}
