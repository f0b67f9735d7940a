//! The measures of an object as its points come one after the other.
//! Each function here says what one point more does to one measure.
ghost use Rattle.std.specs.Prelude.{◌≡◌, ◌<◌, ◌≤◌, ◌+◌, ◌*◌, ◌^◌, [], ℕ, List, IsTrue};
ghost use Rattle.std.specs.Option.{option_map};
ghost use Rattle.shape_terms.specs.Limits.{most_points};
ghost use Rattle.shape_terms.specs.Points.{sides_of, in_box, raster_point};
ghost use Rattle.measure_terms.specs.Measures.{is_left, is_end, is_junction, measures_of};
ghost use Rattle.measure_terms.specs.OneMore.{counted, deepest_with, measures_with};
ghost use Rattle.measuring.specs.Told.{fact_told, measures_told};

use crate::fact::{Fact, place};
use crate::row::Measures;
use crate::span::Span;
use shape_space::{Point, Sides};

// A count, with one more where it counts.
fn counted(counts: bool, n: u32) -> u32
    requires { n < most_points }
    ensures value { result ≡ counted counts n }
    ensures few { result ≤ n + 1 }
{
    if counts { n + 1 } else { n }
}

// Whether a point left has one near neighbour left.
fn is_end(left: Option<u32>) -> bool
    ensures { result ≡ is_end left }
{
    match left {
        Some(n) => n == 1,
        None => false,
    }
}

// Whether a point left has three or more near neighbours left.
fn is_junction(left: Option<u32>) -> bool
    ensures { result ≡ is_junction left }
{
    match left {
        Some(n) => 3 <= n,
        None => false,
    }
}

// The first deepest point, with one more point; both by their raster numbers.
fn deepest_with(old: Option<u32>, depth: u64, square: u64, i: u32) -> Option<u32>
    ensures { (sides : List ℕ) → option_map (raster_point sides) result
        ≡ deepest_with (option_map (raster_point sides) old) depth square (raster_point sides i) }
{
    match old {
        Some(q) if square <= depth => Some(q),
        _ => Some(i),
    }
}

impl Measures {
    // The measures of no point.
    pub(crate) fn none() -> Measures
        ensures { (sides : List ℕ) → measures_told sides result ≡ measures_of [] }
    {
        let span = Span {
            least: 0,
            greatest: 0,
            sum: 0,
        };
        Measures {
            area: 0,
            x: span,
            y: span,
            z: span,
            depth: 0,
            deepest: None,
            skeleton: 0,
            ends: 0,
            junctions: 0,
            exposed: 0,
            touches: false,
        }
    }

    // The measures with one more point, of a box with these sides.
    pub(crate) fn with<P: Point>(&self, sides: Sides<P>, f: &Fact<P>) -> Measures
        requires few { self.now.area < most_points }
        requires exposed { f.now.exposed ≤ 6 }
        requires inside { IsTrue (in_box (sides_of (P.coords sides.lengths))
            (P.coords f.now.point)) }
        requires number { P.coords f.now.point
            ≡ raster_point (sides_of (P.coords sides.lengths)) f.now.number }
        ensures { measures_told (sides_of (P.coords sides.lengths)) result
            ≡ measures_with (measures_told (sides_of (P.coords sides.lengths)) self.now)
            (fact_told P.coords f.now) }
    {
        Measures {
            area: self.area + 1,
            x: self.x.with(self.area, place(sides, f.point, 0)),
            y: self.y.with(self.area, place(sides, f.point, 1)),
            z: self.z.with(self.area, place(sides, f.point, 2)),
            depth: self.depth.max(f.square),
            deepest: deepest_with(self.deepest, self.depth, f.square, f.number),
            skeleton: counted(f.left.is_some(), self.skeleton),
            ends: counted(is_end(f.left), self.ends),
            junctions: counted(is_junction(f.left), self.junctions),
            exposed: self.exposed + f.exposed as u64,
            touches: self.touches || f.rim,
        }
    }
}
