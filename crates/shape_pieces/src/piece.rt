//! The piece from a place of a contour on: the longer of the segments of the two axes, up to the last place.
//! Where both stop before that, why they do is the evidence that the piece can't be longer.
ghost use Rattle.std.specs.Prelude.{◌≡◌, ◌≤◌, ◌<◌, ◌-◌, ◌+◌, ◌⊎◌, length};
ghost use Rattle.shape_terms.specs.Naive.{IsNaiveFor};
ghost use Rattle.shape_refute.specs.Terms.{naive_of};
ghost use Rattle.shape_terms.specs.Least.{IsLeastLine};
ghost use Rattle.shape_line.specs.Small.{IsPlaneLine};
ghost use Rattle.shape_line.specs.SegmentTerms.{points_of};
ghost use Rattle.shape_pieces.specs.Steps.{piece_of, IsPieceFrom};

use crate::entry::Entry;
use shape_crack::Contour;
use shape_line::{Gap, Grown, Stretch, ahead, forward};

// The place where a piece ends: that of the segment, or the last one of the contour.
fn end_of(place: u32, n: u32) -> u32
    requires { 1 ≤ n }
    ensures place { result ≤ place }
    ensures within { result < n }
    ensures one { (result ≡ place) ⊎ (result + 1 ≡ n) }
{
    if place < n { place } else { n - 1 }
}

// The stretch of the segment that was grown, up to the last place of the contour.
fn stretch_of(first: u32, n: u32, g: &Grown) -> Stretch
    requires { 1 ≤ n }
    ensures first { result.first ≡ first }
    ensures last { result.last ≤ g.now.place }
    ensures within { result.last < n }
    ensures one { (result.last ≡ g.now.place) ⊎ (result.last + 1 ≡ n) }
    ensures axis { result.line.axis ≡ g.now.segment.axis }
    ensures held { IsNaiveFor g.now.segment.axis (points_of g.now.segment)
        (naive_of 2 result.line) }
    ensures short { IsPlaneLine g.now.segment.axis result.line }
    ensures least { IsLeastLine g.now.segment.axis (points_of g.now.segment)
        (naive_of 2 result.line) }
{
    Stretch {
        first,
        last: end_of(g.place, n),
        line: g.segment.naive(),
    }
}

/// The longest straight piece of the open path from a place on.
pub fn piece_from(contour: &Contour, first: u32) -> Entry
    requires { first < length contour.now.points }
    ensures { IsPieceFrom contour.now.points first (piece_of result) }
{
    let n = contour.len();
    let x = forward(contour, first, 0);
    let y = forward(contour, first, 1);
    let gap = Gap {
        x: ahead(x.clash),
        y: ahead(y.clash),
    };
    if x.place < y.place {
        Entry {
            stretch: stretch_of(first, n, &y),
            gap,
        }
    } else {
        Entry {
            stretch: stretch_of(first, n, &x),
            gap,
        }
    }
}
