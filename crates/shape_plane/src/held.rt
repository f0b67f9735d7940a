//! Lines and planes of an axis that hold a list of points, with the places where their coefficients have the least and the greatest value.
//! By these a point more is tried in the time of one scalar product.
ghost use Rattle.std.specs.Prelude.{◌≡◌, ◌<◌, ◌≤◌, ◌^◌, ◌↔◌, ◌++◌, [], ◌∷◌, List, IsTrue, map, length, take, pos, ◌-ℤ◌, ◌<ℤ◌, ◌+ℤ◌, unsigned_abs};
ghost use Rattle.shape_terms.specs.Points.{Point as Place, coordinate};
ghost use Rattle.shape_terms.specs.FramedBox.{IsWithin};
ghost use Rattle.shape_terms.specs.Naive.{IsProper};
ghost use Rattle.shape_plane.specs.Pairs.{AreInside, AreSmallCoefficients};
ghost use Rattle.shape_plane.specs.Extremes.{values_at, AreExtremes};
ghost use Rattle.shape_plane.specs.Verdicts.{IsTested, IsKept};

use crate::exact::above;
use crate::extreme::{Extreme, Extremes, least_and_greatest, widened};
use crate::pair::Pair;
use crate::values::value;
use shape_refute::Naive;
use shape_space::Point;

/// A proper line or plane that holds a list of points, with the extremes of its coefficients there.
#[derive(Clone, Copy)]
pub struct Held {
    pub plane: Naive,
    pub ends: Extremes,
}

/// What coefficients say of a list of points.
#[derive(Clone, Copy)]
pub enum Tested {
    /// This line or plane holds it.
    Holds(Held),
    /// They break this pair most.
    Breaks(Pair),
}

// Whether the values differ by less than the main coefficient.
fn are_close(axis: usize, a: &[i64; 3], e: Extremes) -> bool
    requires axis { axis < 3 }
    requires low { unsigned_abs e.low.value ≤ 6917529027641081856 }
    requires small { AreSmallCoefficients 3 a.now }
    ensures { IsTrue result ↔ e.high.value <ℤ (e.low.value +ℤ coordinate a.now axis) }
{
    e.high.value < above(e.low.value, a[axis])
}

// The line or plane with these parameters.
fn with_axis(axis: usize, a: &[i64; 3], mu: i64) -> Naive
    requires { axis < 3 }
    ensures axis { result.axis ≡ axis }
    ensures a { result.a ≡ a.now }
    ensures mu { result.mu ≡ mu }
{
    Naive {
        a: *a,
        mu,
        axis: axis as u8,
    }
}

// The line or plane of proper coefficients that holds a list with these extremes, or the pair that they break most.
fn judged<P: Point>(axis: usize, a: &[i64; 3], e: Extremes) -> Tested
    requires axis { axis < P.DIM }
    requires low { unsigned_abs e.low.value ≤ 6917529027641081856 }
    requires small { AreSmallCoefficients P.DIM a.now }
    requires proper { IsProper axis (record { a = take P.DIM a.now; mu = pos 0 }) }
    ensures { (points : List Place)
        → AreExtremes (values_at P.DIM a.now points) (length points) (length points) e
        → IsTested P.DIM axis points a.now result }
{
    if are_close(axis, a, e) {
        Tested::Holds(Held {
            plane: with_axis(axis, a, e.low.value),
            ends: e,
        })
    } else {
        Tested::Breaks(Pair {
            low: e.low.place,
            high: e.high.place,
        })
    }
}

/// What proper coefficients say of a list.
pub fn try_slopes<P: Point>(points: &[P], axis: usize, a: &[i64; 3]) -> Tested
    requires axis { axis < P.DIM }
    requires some { 1 ≤ length points.now }
    requires few { length points.now < 2 ^ 31 }
    requires inside { AreInside P.MAX_SIDE (map P.coords points.now) }
    requires small { AreSmallCoefficients P.DIM a.now }
    requires proper { IsProper axis (record { a = take P.DIM a.now; mu = pos 0 }) }
    ensures { IsTested P.DIM axis (map P.coords points.now) a.now result }
{
    let e = least_and_greatest(points, a);
    judged::<P>(axis, a, e)
}

/// What the coefficients of a line or plane that holds a list of so many points say of the list with a point put last.
pub fn try_last<P: Point>(axis: usize, held: &Held, count: u32, p: P) -> Tested
    requires axis { axis < P.DIM }
    requires within { IsWithin (pos 0) (P.MAX_SIDE -ℤ pos 1) (P.coords p) }
    requires held { (points : List Place) × (length points ≡ count)
        × IsKept P.DIM axis points held.now }
    ensures { (points : List Place) → length points ≡ count → IsKept P.DIM axis points held.now
        → IsTested P.DIM axis (points ++ P.coords p ∷ []) held.now.plane.a result }
{
    let a = held.plane.a;
    let last = Extreme {
        place: count,
        value: value(&a, p),
    };
    judged::<P>(axis, &a, widened(held.ends, last))
}
