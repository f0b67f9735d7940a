//! Segments that grow along a contour, from a place on.
//! Each is grown for one axis, point by point; how the two axes go together belongs elsewhere.
ghost use Rattle.std.specs.Prelude.{◌≡◌, ◌*◌, ◌<◌, ◌++◌, [], ◌∷◌};
ghost use Rattle.shape_terms.specs.Limits.{most_round};
ghost use Rattle.shape_terms.specs.Steps.{AreClose};
ghost use Rattle.shape_refute.specs.Terms.{flat_point};
ghost use Rattle.shape_refute.specs.PairTerms.{IsSmall};
ghost use Rattle.shape_line.specs.Frames.{end_point};
ghost use Rattle.shape_line.specs.SegmentTerms.{points_of};
ghost use Rattle.shape_line.specs.Searches.{IsForward};
ghost use Rattle.shape_line.specs.GrowSteps.{Takes, HasGrownTo, place_of};

use crate::clash::Clash;
use crate::segment::Segment;
use shape_crack::Contour;
use shape_space::P2;

/// A segment of a contour, and why it does not go on by a place more.
#[derive(Clone, Copy)]
pub struct Grown {
    /// The segment.
    pub segment: Segment,
    /// The place where it ends.
    pub place: u32,
    /// Why it ends there.
    pub clash: Clash,
}

// The point at a place of a contour, round and round.
#[inline(always)]
fn point_on(contour: &Contour, i: u32) -> P2
    ensures value { flat_point result ≡ place_of contour.now.points i }
    ensures small { IsSmall result }
{
    let n = contour.len();
    contour.point(i % n)
}

/// The segment of the point at a place.
pub fn begun_at(contour: &Contour, i: u32, axis: usize) -> Segment
    requires { axis < 2 }
    ensures { Takes axis (place_of contour.now.points i ∷ []) result }
{
    Segment::start(point_on(contour, i), axis)
}

/// Has a segment take the point at a place, or says why the run is not straight with it.
#[inline(always)]
pub fn take_place(contour: &Contour, segment: &mut Segment, i: u32) -> Option<Clash>
    requires { AreClose (end_point (points_of segment.old))
        (place_of contour.now.points i) }
    ensures { HasGrownTo segment.old.axis
        (points_of segment.old ++ place_of contour.now.points i ∷ []) segment.old segment.new result }
{
    segment.step(point_on(contour, i))
}

/// The longest segment of an axis from a place on.
pub fn forward(contour: &Contour, first: u32, axis: usize) -> Grown
    requires low { first < 3 * most_round }
    requires axis { axis < 2 }
    ensures { IsForward contour.now.points first axis result }
{
    contour.is_closed_path();
    let mut segment = begun_at(contour, first, axis);
    let mut place = first;
    loop {
        let next = place + 1;
        match take_place(contour, &mut segment, next) {
            None => place = next,
            Some(clash) => {
                return Grown {
                    segment,
                    place,
                    clash,
                };
            }
        }
    }
}
