//! A point of a patch whose near neighbours are asked for: by raster numbers, where their distances are known.
//! What becomes of the neighbours belongs elsewhere.
ghost use Rattle.std.specs.Prelude.{◌≡◌, ◌<◌, ◌≤◌, ◌&&◌, not, pos, ◌-ℤ◌, IsTrue, length};
ghost use Rattle.shape_terms.specs.Points.{sides_of, in_box};
ghost use Rattle.shape_terms.specs.FramedBox.{IsWithin};
ghost use Rattle.shape_terms.specs.Pictures.{at};
ghost use Rattle.shape_terms.specs.Adjacency.{near_point};
ghost use Rattle.shape_plane.specs.Surroundings.{IsNumberOf, IsInner, AreCandidates};

use shape_adj::{NearNumbers, Pairing, is_inner};
use shape_grid::Grid;
use shape_space::Point;

/// A point of a box, with what all its near neighbours ask for.
#[derive(Drop)]
pub struct Around<'a, P: Pairing> {
    /// The near neighbours of the points of the box.
    pub near: &'a NearNumbers<P>,
    /// The point.
    pub point: P,
    /// Its raster number.
    pub number: u32,
    /// Whether the box holds all its near neighbours, and their distances are known.
    pub inner: bool,
    pub ghost within: { IsWithin (pos 0) (P.MAX_SIDE -ℤ pos 1) (P.coords point) },
    pub ghost place: { IsNumberOf
        (sides_of (P.coords near.now.sides.lengths)) (P.coords point) number },
    pub ghost fit: { IsTrue inner → IsInner P.NEAR_COUNT
        (sides_of (P.coords near.now.sides.lengths)) near.now.gaps.items (P.coords point) },
}

// Whether the box holds all near neighbours of a point, and their distances are known.
fn has_all_near<P: Pairing>(near: &NearNumbers<P>, p: P) -> bool
    ensures { IsTrue result → IsInner P.NEAR_COUNT
        (sides_of (P.coords near.now.sides.lengths)) near.now.gaps.items (P.coords p) }
{
    near.all_known() && is_inner(&near.sides, p)
}

impl<'a, P: Pairing> Around<'a, P> {
    /// A point of the box.
    pub fn new(near: &'a NearNumbers<P>, p: P) -> Self
        requires within { IsWithin (pos 0) (P.MAX_SIDE -ℤ pos 1) (P.coords p) }
        requires inside { IsTrue
            (in_box (sides_of (P.coords near.now.sides.lengths)) (P.coords p)) }
        ensures near { result.near.now ≡ near.now }
        ensures point { result.point ≡ p }
    {
        Around {
            near,
            point: p,
            number: near.sides.raster(p),
            inner: has_all_near(near, p),
        }
    }

    // Whether the set has the point as far behind this one as a near neighbour is: that neighbour, where the box holds it.
    fn has_behind(&self, left: &Grid<P>, n: usize) -> bool
        requires known { n < length self.now.near.now.gaps.items }
        requires left { sides_of (P.coords self.now.near.now.sides.lengths) ≡ left.now.sides }
        ensures { IsTrue (at left.now (near_point (P.coords self.now.point) n)) → IsTrue result }
    {
        left.is_picture();
        let q = self.number.wrapping_add(self.near.gaps[n]);
        (q as usize) < left.values().len() && left.has_number(q)
    }

    // The numbers of near neighbours that may be in the set, where their distances are known but the box does not hold them all.
    fn candidates_by_number(&self, left: &Grid<P>) -> u32
        requires known { P.NEAR_COUNT ≤ length self.now.near.now.gaps.items }
        requires left { sides_of (P.coords self.now.near.now.sides.lengths) ≡ left.now.sides }
        ensures { AreCandidates P.NEAR_COUNT left.now (P.coords self.now.point) result }
    {
        let mut found = 0;
        for n in 0..P::NEAR_COUNT {
            if self.has_behind(left, n) {
                found |= 1u32 << n;
            }
        }
        found
    }

    /// The numbers of near neighbours that may be in a set of points of the box, as bits: just of those that are in it, where the
    /// box holds them all and their distances are known, and else of others too.
    pub fn candidates(&self, left: &Grid<P>) -> u32
        requires { sides_of (P.coords self.now.near.now.sides.lengths) ≡ left.now.sides }
        ensures { AreCandidates P.NEAR_COUNT left.now (P.coords self.now.point) result }
    {
        left.is_picture();
        if self.inner {
            self.near.mask(left.values(), self.number)
        } else if self.near.all_known() {
            self.candidates_by_number(left)
        } else {
            (1u32 << P::NEAR_COUNT) - 1
        }
    }

    /// Whether a near neighbour is in one set of points of the box, and not in another.
    pub fn is_open(&self, left: &Grid<P>, tried: &Grid<P>, n: usize) -> bool
        requires below { n < P.NEAR_COUNT }
        requires left { sides_of (P.coords self.now.near.now.sides.lengths) ≡ left.now.sides }
        requires tried { left.now.sides ≡ tried.now.sides }
        ensures { result ≡ at left.now (near_point (P.coords self.now.point) n)
            && not (at tried.now (near_point (P.coords self.now.point) n)) }
    {
        if self.inner {
            let q = self.near.known(self.number, n);
            left.has_number(q) && !tried.has_number(q)
        } else {
            let q = self.point.near(n);
            left.has(q) && !tried.has(q)
        }
    }
}
