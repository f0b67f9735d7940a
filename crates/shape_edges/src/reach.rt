//! How far a straight run reaches.
//! A part of a straight run is straight, so where it goes on no further no longer run is.
ghost use Rattle.std.specs.Prelude.{◌≡◌, ◌<◌, ◌*◌};
ghost use Rattle.shape_terms.specs.Limits.{most_round};
ghost use Rattle.shape_edges.specs.Searches.{IsReach};

use crate::grow::forward;
use judge_edges::{Arc, Corners};

/// The longest straight run from a place on.
pub fn longest_from(path: &Corners, first: u32) -> Arc
    requires { first < 3 * most_round }
    ensures reach { IsReach path.now result }
    ensures first { result.first ≡ first }
{
    path.is_corner_path();
    let grown = forward(path, first);
    Arc {
        first,
        last: grown.place,
        line: grown.edge.line(),
    }
}
