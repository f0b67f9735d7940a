//! What a cover keeps of one stretch.
//! How stretches are found belongs elsewhere.
ghost use Rattle.std.specs.Prelude.{◌≡◌, pos};
ghost use Rattle.shape_terms.specs.Points.{coordinate};
ghost use Rattle.shape_refute.specs.Terms.{naive_of};
ghost use Rattle.shape_terms.specs.Least.{IsLeastLine};
ghost use Rattle.shape_line.specs.SegmentTerms.{points_of};

use crate::bend::Bend;
use crate::segment::Segment;
use crate::stretch::Stretch;

/// A stretch, and why the gap after it is not straight.
#[derive(Clone, Copy)]
pub struct Entry {
    /// The stretch.
    pub stretch: Stretch,
    /// The segment that was grown over its points.
    pub grown: Segment,
    /// Why the gap after it is not straight.
    pub bend: Bend,
    pub ghost flat: { coordinate stretch.line.a 2 ≡ pos 0 },
    pub ghost same_axis: { grown.axis ≡ stretch.line.axis },
    pub ghost least: { IsLeastLine stretch.line.axis (points_of grown) (naive_of 2 stretch.line) },
}
