//! Segments that grow along a contour backward, from a place down.
//! The mirror of growing on; the segment's points stand in the order in which they are taken.
ghost use Rattle.std.specs.Prelude.{◌<◌, ◌*◌};
ghost use Rattle.shape_terms.specs.Limits.{most_round};
ghost use Rattle.shape_terms.specs.Straight.{IsStraight};
ghost use Rattle.shape_terms.specs.Covers.{arc};
ghost use Rattle.shape_line.specs.Searches.{IsBack};

use crate::grow::{Grown, begun_at, take_place};
use shape_crack::Contour;

/// The longest segment of an axis from a place back, where the arc from the place `first` is not straight.
pub fn backward(contour: &Contour, first: u32, last: u32, axis: usize) -> Grown
    requires rises { first < last }
    requires low { last < 3 * most_round }
    requires axis { axis < 2 }
    requires bent { IsStraight (arc contour.now.points first last) → ⊥ }
    ensures { IsBack contour.now.points first last axis result }
{
    contour.is_closed_path();
    let mut segment = begun_at(contour, last, axis);
    let mut place = last;
    loop {
        match take_place(contour, &mut segment, place - 1) {
            None => place -= 1,
            Some(clash) => {
                return Grown {
                    segment,
                    place,
                    clash,
                };
            }
        }
    }
}
