//! The places of the least and of the greatest value of coefficients among a list of points.
//! Of several such places none is preferred.
ghost use Rattle.std.specs.Prelude.{◌≡◌, ◌⊎◌, ◌≤◌, ◌<◌, ◌+◌, ◌^◌, ℕ, ℤ, ◌≤ℤ◌, map, length};
ghost use Rattle.shape_plane.specs.Pairs.{AreInside, AreSmallCoefficients};
ghost use Rattle.shape_plane.specs.Extremes.{values_at, AreExtremes, IsExtreme};

use crate::values::value;
use shape_space::Point;

/// A place of the list, and the value there.
#[derive(Clone, Copy)]
pub struct Extreme {
    pub place: u32,
    pub value: i64,
}

/// A place of the least value and one of the greatest.
#[derive(Clone, Copy)]
pub struct Extremes {
    pub low: Extreme,
    pub high: Extreme,
}

// The place of the lesser value.
fn lesser(a: Extreme, b: Extreme) -> Extreme
    ensures one { (result ≡ a) ⊎ (result ≡ b) }
    ensures first { result.value ≤ℤ a.value }
    ensures second { result.value ≤ℤ b.value }
{
    if b.value < a.value { b } else { a }
}

// The place of the greater value.
fn greater(a: Extreme, b: Extreme) -> Extreme
    ensures one { (result ≡ a) ⊎ (result ≡ b) }
    ensures first { a.value ≤ℤ result.value }
    ensures second { b.value ≤ℤ result.value }
{
    if a.value < b.value { b } else { a }
}

/// The extremes with the value at one more place.
pub fn widened(old: Extremes, next: Extreme) -> Extremes
    ensures { (f : ℕ → ℤ) (n i : ℕ) → AreExtremes f n i old → i < n → IsExtreme f i next
        → AreExtremes f n (i + 1) result }
{
    Extremes {
        low: lesser(old.low, next),
        high: greater(old.high, next),
    }
}

// A place and the value there.
fn extreme_at<P: Point>(points: &[P], a: &[i64; 3], i: u32) -> Extreme
    requires place { i < length points.now }
    requires inside { AreInside P.MAX_SIDE (map P.coords points.now) }
    requires small { AreSmallCoefficients P.DIM a.now }
    ensures { IsExtreme (values_at P.DIM a.now (map P.coords points.now)) i result }
{
    Extreme {
        place: i,
        value: value(a, points[i as usize]),
    }
}

/// The places of the least and of the greatest value.
pub fn least_and_greatest<P: Point>(points: &[P], a: &[i64; 3]) -> Extremes
    requires some { 1 ≤ length points.now }
    requires few { length points.now < 2 ^ 31 }
    requires inside { AreInside P.MAX_SIDE (map P.coords points.now) }
    requires small { AreSmallCoefficients P.DIM a.now }
    ensures { AreExtremes (values_at P.DIM a.now (map P.coords points.now))
        (length points.now) (length points.now) result }
{
    let first = extreme_at(points, a, 0);
    let mut best = Extremes {
        low: first,
        high: first,
    };
    for i in 1..points.len() as u32 {
        best = widened(best, extreme_at(points, a, i));
    }
    best
}
