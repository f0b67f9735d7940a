//! The near neighbours of a point at a face of the box, by those of a point beside it that has all of its own in the box.
//! Each of them is that point itself, or a near neighbour of it.
ghost use Rattle.std.specs.Prelude.{◌≡◌, ◌⊎◌, ℕ, ℤ, ◌<◌, ◌≤◌, ◌↔◌, ◌≤ℤ◌, ◌-ℤ◌, IsTrue, length, vec_capacity, pos, nat_abs};
ghost use Rattle.shape_terms.specs.Points.{Point as Where, sides_of, in_box, box_count, raster_point};
ghost use Rattle.shape_terms.specs.Adjacency.{Near, near_point};
ghost use Rattle.shape_terms.specs.Pictures.{at};
ghost use Rattle.judge_outline.specs.Terms.{point_of};
ghost use Rattle.judge_outline.specs.Listings.{AreNumberedOf};

use crate::lately::are_near;
use crate::numbered::put;
use shape_adj::{NearNumbers, Pairing};
use shape_grid::Grid;
use shape_space::{P3, Sides};

// A coordinate of a box, moved one step from an end of its side.
fn inward(x: i32, side: i32) -> i32
    requires side { pos 1 ≤ℤ side }
    ensures { (y : ℤ) → pos 0 ≤ℤ y → nat_abs y < nat_abs side → nat_abs (y -ℤ x) ≤ 1
        → nat_abs (y -ℤ result) ≤ 1 }
{
    if x < 1 {
        1
    } else if x > side - 2 {
        side - 2
    } else {
        x
    }
}

/// A point beside a point of the box, which all near neighbours of that one in the box are near to or are.
pub(crate) fn point_beside(sides: &Sides<P3>, p: P3) -> P3
    ensures { (r : Where) → IsTrue (in_box (sides_of (point_of sides.now.lengths)) r)
        → Near r (point_of p) → (point_of result ≡ r) ⊎ Near r (point_of result) }
{
    P3 {
        z: inward(p.z, sides.side(2)),
        y: inward(p.y, sides.side(1)),
        x: inward(p.x, sides.side(0)),
    }
}

// Puts down the number of a point of the box, if it is an object point near another.
fn put_near(left: &Grid<P3>, q: P3, i: u32, p: P3, marks: &mut Grid<P3>, numbers: &mut Vec<u32>)
    requires place { i < box_count left.now.sides }
    requires number { raster_point left.now.sides i ≡ point_of q }
    requires box_ { marks.old.sides ≡ left.now.sides }
    requires numbered { AreNumberedOf left.now marks.old numbers.old.items
        (vec_capacity numbers.old) }
    ensures box_ { marks.new.sides ≡ left.now.sides }
    ensures numbered { AreNumberedOf left.now marks.new numbers.new.items
        (vec_capacity numbers.new) }
    ensures capacity { vec_capacity numbers.new ≡ vec_capacity numbers.old }
    ensures points { (r : Where) → IsTrue (at marks.new r) ↔ (IsTrue (at marks.old r)
        ⊎ ((point_of q ≡ r) × IsTrue (at left.now r) × Near r (point_of p))) }
{
    if !left.has_number(i) || !are_near(q, p) {
        return;
    }
    put(i, marks, numbers);
}

/// Puts down the object points near a point of the box, by a point beside it of which all near neighbours are in the box.
pub(crate) fn gather_beside(
    left: &Grid<P3>,
    near: &NearNumbers<P3>,
    p: P3,
    q: P3,
    marks: &mut Grid<P3>,
    numbers: &mut Vec<u32>,
)
    requires near_box { sides_of (point_of near.now.sides.lengths) ≡ left.now.sides }
    requires box_ { marks.old.sides ≡ left.now.sides }
    requires known { 26 ≤ length near.now.gaps.items }
    requires inside { IsTrue (in_box (sides_of (point_of near.now.sides.lengths)) (point_of q)) }
    requires inner { (k : ℕ) → k < 26
        → IsTrue (in_box (sides_of (point_of near.now.sides.lengths)) (near_point (point_of q) k)) }
    requires beside { (r : Where) → IsTrue (in_box (sides_of (point_of near.now.sides.lengths)) r)
        → Near r (point_of p) → (point_of q ≡ r) ⊎ Near r (point_of q) }
    requires numbered { AreNumberedOf left.now marks.old numbers.old.items
        (vec_capacity numbers.old) }
    ensures box_ { marks.new.sides ≡ left.now.sides }
    ensures numbered { AreNumberedOf left.now marks.new numbers.new.items
        (vec_capacity numbers.new) }
    ensures capacity { vec_capacity numbers.new ≡ vec_capacity numbers.old }
    ensures points { (r : Where) → IsTrue (at marks.new r) ↔ (IsTrue (at marks.old r)
        ⊎ (IsTrue (at left.now r) × Near r (point_of p))) }
{
    left.is_picture();
    let i = near.sides.raster(q);
    let mut rest = near.mask(left.values(), i);
    while rest != 0 {
        let k = rest.trailing_zeros() as usize;
        rest &= !(1u32 << k);
        put_near(left, q.near(k), near.known(i, k), p, marks, numbers);
    }
    put_near(left, q, i, p, marks, numbers);
}
