//! The near neighbours of a point that come before it and have its label, as bits.
//! What is made of them belongs elsewhere.
ghost use Rattle.std.specs.Prelude.{◌≡◌, ◌<◌, ◌↔◌, ℕ, IsTrue, length, slice_index};
ghost use Rattle.shape_terms.specs.Points.{sides_of, in_box, box_count, raster_point};
ghost use Rattle.shape_terms.specs.Adjacency.{near_point};
ghost use Rattle.shape_adj.specs.NearMasks.{In};
ghost use Rattle.measure_terms.specs.Seen.{IsSeen};

use crate::labelling::Labelling;
use shape_adj::{NearNumbers, Pairing, is_inner};
use shape_space::Point;

// Whether a near neighbour comes before the point with a raster number and has its label.
fn is_seen<P: Pairing, L: Labelling>(
    near: &NearNumbers<P>,
    labels: &L,
    p: P,
    i: u32,
    inner: bool,
    k: usize,
) -> bool
    requires labels { length (L.labels labels.now)
        ≡ box_count (sides_of (P.coords near.now.sides.lengths)) }
    requires below { i < box_count (sides_of (P.coords near.now.sides.lengths)) }
    requires point { P.coords p ≡ raster_point (sides_of (P.coords near.now.sides.lengths)) i }
    requires inner { IsTrue inner → (k : ℕ) → k < P.NEAR_COUNT
        → IsTrue (in_box (sides_of (P.coords near.now.sides.lengths)) (near_point (P.coords p) k)) }
    requires number { k < P.NEAR_COUNT }
    ensures { IsTrue result
        ↔ IsSeen (sides_of (P.coords near.now.sides.lengths)) (L.labels labels.now)
        (slice_index (L.labels labels.now) i) i (near_point (P.coords p) k) }
{
    if !inner && !near.sides.inside(p.near(k)) {
        return false;
    }
    let j = near.number(i, k);
    j < i && labels.label_at(j) == labels.label_at(i)
}

/// The near neighbours that come before the point with a raster number and have its label. Those of the second half come after it.
pub(crate) fn seen_before<P: Pairing, L: Labelling>(
    near: &NearNumbers<P>,
    labels: &L,
    i: u32,
) -> u32
    requires labels { length (L.labels labels.now)
        ≡ box_count (sides_of (P.coords near.now.sides.lengths)) }
    requires below { i < box_count (sides_of (P.coords near.now.sides.lengths)) }
    ensures { (j : ℕ) → In result j ↔ ((j < P.NEAR_COUNT)
        × IsSeen (sides_of (P.coords near.now.sides.lengths)) (L.labels labels.now)
        (slice_index (L.labels labels.now) i) i
        (near_point (raster_point (sides_of (P.coords near.now.sides.lengths)) i) j)) }
{
    let p = near.sides.unraster(i);
    let inner = is_inner(&near.sides, p);
    let mut mask = 0;
    for k in 0..P::NEAR_COUNT / 2 {
        if is_seen(near, labels, p, i, inner, k) {
            mask |= 1u32 << k;
        }
    }
    mask
}
