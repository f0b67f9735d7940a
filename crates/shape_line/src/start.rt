//! Where the next maximal segment begins: at the least place from which a straight arc passes the end of the present one.
//! A segment of each axis is grown backward from that end; where it stops is the evidence for the gap.
ghost use Rattle.std.specs.Prelude.{◌≡◌, ◌⊎◌, ◌*◌, ◌<◌, ◌≤◌};
ghost use Rattle.shape_terms.specs.Limits.{most_round};
ghost use Rattle.shape_line.specs.Searches.{IsReach, IsNextStart};

use crate::back::backward;
use crate::bend::Bend;
use crate::reach::Reach;
use shape_crack::Contour;

/// A place from which the arc to the place after a stretch is straight, and why it is not from the place before.
#[derive(Clone, Copy)]
pub struct NextStart {
    /// The place.
    pub first: u32,
    /// Why the arc from the place before is not straight.
    pub bend: Bend,
}

// The earlier of two places.
fn earlier(a: u32, b: u32) -> u32
    ensures first { result ≤ a }
    ensures second { result ≤ b }
    ensures one { (result ≡ a) ⊎ (result ≡ b) }
{
    if a < b { a } else { b }
}

/// The least place from which the arc to the place after a stretch is straight.
pub fn next_start(contour: &Contour, reach: &Reach) -> NextStart
    requires low { reach.now.stretch.first < 2 * most_round }
    requires reach { IsReach contour.now.points reach.now }
    ensures { IsNextStart contour.now.points reach.now result }
{
    contour.is_closed_path();
    let old = reach.stretch.first;
    let end = reach.stretch.last + 1;
    let x = backward(contour, old, end, 0);
    let y = backward(contour, old, end, 1);
    let first = earlier(x.place, y.place);
    NextStart {
        first,
        bend: Bend {
            x: x.clash,
            y: y.clash,
            last: end + 1 - first,
        },
    }
}
