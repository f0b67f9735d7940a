//! Where the next maximal run begins: at the least place from which a straight run passes the end of the present one.
//! A run is grown backward from that end, and from where it stops one is grown on, whose end is the evidence for the gap.
ghost use Rattle.std.specs.Prelude.{◌<◌, ◌*◌};
ghost use Rattle.shape_terms.specs.Limits.{most_round};
ghost use Rattle.shape_edges.specs.Searches.{IsReach, IsNextStart};

use crate::back::backward;
use crate::grow::forward;
use judge_edges::{Arc, Corners, EdgeGap};

/// A place from which the run to the place after an arc is straight, and why it is not from the place before.
#[derive(Clone, Copy)]
pub struct NextStart {
    /// The place.
    pub first: u32,
    /// Why the run from the place before is not straight.
    pub gap: EdgeGap,
}

/// The least place from which the run to the place after an arc is straight.
pub fn next_start(path: &Corners, reach: &Arc) -> NextStart
    requires low { reach.now.first < 2 * most_round }
    requires reach { IsReach path.now reach.now }
    ensures { IsNextStart path.now reach.now result }
{
    path.is_corner_path();
    let first = backward(path, reach.first, reach.last + 1);
    let gap = forward(path, first - 1).gap;
    NextStart { first, gap }
}
