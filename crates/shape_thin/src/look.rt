//! Looks at the near neighbours of a point after its deletion, whether they wait in the queue. Each look is one step of the counter.
//! How a point is looked at when its place is passed stands in `front.rt`.
ghost use Rattle.std.specs.Prelude.{◌≡◌, ℕ, ◌+◌, ◌<◌, ◌≤◌, length, slice_index, IsTrue};
ghost use Rattle.shape_terms.specs.Points.{in_box, box_count, raster_point};
ghost use Rattle.shape_terms.specs.Pictures.{at};
ghost use Rattle.shape_terms.specs.Adjacency.{near_point};
ghost use Rattle.shape_adj.specs.NearMasks.{In};
ghost use Rattle.shape_queue.specs.Keys.{has};
ghost use Rattle.shape_queue.specs.Standing.{IsSubset};
ghost use Rattle.shape_queue.specs.Waiting.{IsQueue, IsQueueBut, IsLookedAt};

use shape_grid::Grid;
use shape_queue::Queue;
use shape_space::Steps;
use shape_topo::{MaskedGrid, SimpleMask};
use std::sync::ledger::Ledger;

// Looks at a point that is left: its key is in the queue afterwards exactly where it is simple.
fn look_at<P: SimpleMask, L: Ledger>(
    left: &MaskedGrid<P>,
    keys: &mut Queue,
    place: u32,
    steps: &mut Steps<L>,
)
    requires below { place < box_count left.now.sides }
    requires object { IsTrue (at left.now (raster_point left.now.sides place)) }
    requires filled { length keys.old.distances ≡ box_count left.now.sides }
    requires far { 0 < slice_index keys.old.distances place }
    ensures looked { IsLookedAt left.now keys.old.distances (raster_point left.now.sides place)
        (has keys.old) (has keys.new) }
    ensures distances { keys.new.distances ≡ keys.old.distances }
    ensures one_step { steps.new ≡ steps.old + 1 }
{
    let simple = left.is_simple(place, steps);
    keys.settle(place, simple);
}

// Looks at the near neighbours of a point that was deleted that are reached; its mask has them all.
pub(crate) fn look_round<P: SimpleMask, L: Ledger>(
    left: &MaskedGrid<P>,
    reached: &Grid<P>,
    keys: &mut Queue,
    place: u32,
    mask: u32,
    steps: &mut Steps<L>,
)
    requires below { place < box_count left.now.sides }
    requires sides { reached.now.sides ≡ left.now.sides }
    requires some { IsSubset reached.now left.now }
    requires filled { length keys.old.distances ≡ box_count left.now.sides }
    requires far { (i : ℕ) → i < box_count left.now.sides
        → IsTrue (at reached.now (raster_point left.now.sides i))
        → 0 < slice_index keys.old.distances i }
    requires masked { (k : ℕ) → k < P.NEAR_COUNT
        → IsTrue (at reached.now (near_point (raster_point left.now.sides place) k)) → In mask k }
    requires boxed { (k : ℕ) → In mask k → (k < P.NEAR_COUNT)
        × IsTrue (in_box left.now.sides (near_point (raster_point left.now.sides place) k)) }
    ensures waits { (passed : ℕ)
        → IsQueueBut (raster_point left.now.sides place) passed left.now reached.now
        keys.old.distances (has keys.old)
        → IsQueue passed left.now reached.now keys.old.distances (has keys.new) }
    ensures distances { keys.new.distances ≡ keys.old.distances }
    ensures few { steps.new ≤ steps.old + P.NEAR_COUNT }
{
    reached.is_picture();
    let mut rest = mask;
    while rest != 0 {
        let k = rest.trailing_zeros() as usize;
        rest &= !(1u32 << k);
        let q = left.near_number(place, k);
        if reached.has_number(q) {
            look_at(left, keys, q, steps);
        }
    }
}
