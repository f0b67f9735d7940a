//! How far a straight arc reaches: the longer of the segments of the two axes.
//! A part of a straight arc is straight, so a segment that goes on no further shows that no longer arc is.
ghost use Rattle.std.specs.Prelude.{◌≡◌, ◌*◌, ◌<◌};
ghost use Rattle.shape_terms.specs.Limits.{most_round};
ghost use Rattle.shape_terms.specs.Naive.{IsNaiveFor};
ghost use Rattle.shape_refute.specs.Terms.{naive_of};
ghost use Rattle.shape_terms.specs.Least.{IsLeastLine};
ghost use Rattle.shape_line.specs.Small.{IsPlaneLine};
ghost use Rattle.shape_line.specs.SegmentTerms.{points_of};
ghost use Rattle.shape_line.specs.Searches.{IsReach};

use crate::grow::{Grown, forward};
use crate::segment::Segment;
use crate::stretch::Stretch;
use shape_crack::Contour;

/// A stretch that is not straight with the place after it.
#[derive(Clone, Copy)]
pub struct Reach {
    /// The stretch.
    pub stretch: Stretch,
    /// The segment that was grown over its points.
    pub grown: Segment,
}

// The stretch of the segment that was grown.
fn stretch_of(first: u32, g: Grown) -> Reach
    ensures first { result.stretch.first ≡ first }
    ensures last { result.stretch.last ≡ g.place }
    ensures axis { result.stretch.line.axis ≡ g.segment.axis }
    ensures held { IsNaiveFor g.segment.axis (points_of g.segment)
        (naive_of 2 result.stretch.line) }
    ensures short { IsPlaneLine g.segment.axis result.stretch.line }
    ensures least { IsLeastLine g.segment.axis (points_of g.segment)
        (naive_of 2 result.stretch.line) }
    ensures grown { result.grown ≡ g.segment }
{
    Reach {
        stretch: Stretch {
            first,
            last: g.place,
            line: g.segment.naive(),
        },
        grown: g.segment,
    }
}

/// The longest straight arc from a place on.
pub fn longest_from(contour: &Contour, first: u32) -> Reach
    requires low { first < 3 * most_round }
    ensures reach { IsReach contour.now.points result }
    ensures first { result.stretch.first ≡ first }
{
    contour.is_closed_path();
    let x = forward(contour, first, 0);
    if x.segment.refuses_other_axis() {
        return stretch_of(first, x);
    }
    let y = forward(contour, first, 1);
    if x.place < y.place {
        stretch_of(first, y)
    } else {
        stretch_of(first, x)
    }
}
