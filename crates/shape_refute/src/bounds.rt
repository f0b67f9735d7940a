//! Two pairs of places of a run that show a line of it to be least.
//! The walk through smaller main coefficients stands in `slopes`.
ghost use Rattle.std.specs.Prelude.{◌≡◌, ◌<◌, ◌↔◌, IsTrue, map, length, take, All};
ghost use Rattle.shape_terms.specs.Points.{coordinate};
ghost use Rattle.shape_terms.specs.Naive.{IsNaiveFor};
ghost use Rattle.shape_refute.specs.Terms.{flat_point, naive_of};
ghost use Rattle.shape_terms.specs.Least.{ShowsLeast};
ghost use Rattle.shape_refute.specs.PairTerms.{IsSmall, pairs_of};

use crate::bound::asked;
use crate::naive::Naive;
use crate::slopes::is_lowest;
use shape_space::P2;

/// Two pairs of places of a run: the value of every line that holds it rises by less than the main coefficient from the low to the high one.
#[derive(Clone, Copy, Debug, PartialEq, Eq)]
pub struct Bounds {
    /// The low place of the first pair, counted from 0.
    pub low1: u32,
    /// The high place of the first pair.
    pub high1: u32,
    /// The low place of the second pair.
    pub low2: u32,
    /// The high place of the second pair.
    pub high2: u32,
}

// Whether all four are places of a run of n points.
fn are_places(bounds: &Bounds, n: usize) -> bool
    ensures { IsTrue result ↔ (bounds.now.low1 < n) × (bounds.now.high1 < n)
        × (bounds.now.low2 < n) × (bounds.now.high2 < n) }
{
    (bounds.low1 as usize) < n
        && (bounds.high1 as usize) < n
        && (bounds.low2 as usize) < n
        && (bounds.high2 as usize) < n
}

// The coefficient of the main axis.
fn main_of(line: &Naive) -> i64
    requires { line.now.axis < 2 }
    ensures { result ≡ coordinate (take 2 line.now.a) line.now.axis }
{
    line.a[line.axis as usize]
}

/// Whether the two pairs show that no line of the axis with a smaller main coefficient holds the run, where this one does.
pub fn is_least(points: &[P2], line: &Naive, bounds: &Bounds) -> bool
    requires axis { line.now.axis < 2 }
    requires small { All IsSmall points.now }
    requires naive { IsNaiveFor line.now.axis (map flat_point points.now) (naive_of 2 line.now) }
    ensures { IsTrue result ↔ ShowsLeast line.now.axis (map flat_point points.now)
        (coordinate (take 2 line.now.a) line.now.axis) (pairs_of bounds.now) }
{
    if !are_places(bounds, points.len()) {
        return false;
    }
    let axis = line.axis as usize;
    let first = asked(points, bounds.low1, bounds.high1, axis);
    let second = asked(points, bounds.low2, bounds.high2, axis);
    is_lowest(main_of(line), first, second)
}
