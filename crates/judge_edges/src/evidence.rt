//! Whether evidence shows that a run of a corner path is not straight.
//! A further kind of evidence is one more arm here.
ghost use Rattle.std.specs.Prelude.{◌≡◌, ◌<◌, ◌+◌, ◌-◌, ◌≤◌, ◌*◌, ◌↔◌, IsTrue, vec_capacity};
ghost use Rattle.shape_terms.specs.Limits.{most_round};
ghost use Rattle.shape_terms.specs.Covers.{arc};
ghost use Rattle.edge_terms.specs.EdgeEvidence.{IsEdgeEvidence};
ghost use Rattle.judge_edges.specs.Gaps.{gap_of};

use crate::bend::bends;
use crate::corners::Corners;
use crate::fold::folds;
use crate::gap::EdgeGap;
use shape_space::P2;

/// Whether the evidence is good for the run from place to place, which shows nothing where it is empty.
pub(crate) fn shows(
    buffer: &mut Vec<P2>,
    path: &Corners,
    first: u32,
    last: u32,
    gap: &EdgeGap,
) -> bool
    requires low { last < 2 * most_round }
    requires room { last + 1 - first ≤ vec_capacity buffer.old }
    ensures answer { IsTrue result ↔ IsEdgeEvidence (arc path.now first last) (gap_of gap.now) }
    ensures capacity { vec_capacity buffer.new ≡ vec_capacity buffer.old }
{
    if first > last {
        return false;
    }
    match *gap {
        EdgeGap::Bend { i, j } => bends(path, first, last, i, j),
        EdgeGap::Fold(why) => folds(buffer, path, first, last, &why),
    }
}
