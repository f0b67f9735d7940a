//! The near neighbours of the points of a patch: whether a point touches it, and which points do.
//! Each point has 26 of them; where all are in the box, they go by their numbers.
ghost use Rattle.std.specs.Prelude.{◌≡◌, ◌⊎◌, ℕ, ◌<◌, ◌≤◌, ◌↔◌, [], IsTrue, length, drop, vec_capacity, pos, negsuc};
ghost use Rattle.shape_terms.specs.Limits.{most_coordinate};
ghost use Rattle.shape_terms.specs.Points.{Point as Where, sides_of, in_box, box_count};
ghost use Rattle.shape_terms.specs.FramedBox.{IsWithin};
ghost use Rattle.shape_terms.specs.Adjacency.{Near, near_point};
ghost use Rattle.shape_terms.specs.Pictures.{at};
ghost use Rattle.judge_outline.specs.Terms.{point_of};
ghost use Rattle.judge_outline.specs.Exposure.{AreMarked, AreRound, IsNearTo, IsNearObject};
ghost use Rattle.judge_outline.specs.Listings.{AreNumberedOf, HasRoomFor};

use crate::beside::{gather_beside, point_beside};
use crate::listed::Listed;
use crate::numbered::{put, unmark_all};
use shape_adj::{NearNumbers, Pairing, is_inner};
use shape_grid::Grid;
use shape_space::P3;

// Whether a point of which all near neighbours are in the box is near an object point.
fn touches_inside(near: &NearNumbers<P3>, recent: &Grid<P3>, p: P3) -> bool
    requires box_ { sides_of (point_of near.now.sides.lengths) ≡ recent.now.sides }
    requires known { 26 ≤ length near.now.gaps.items }
    requires inside { IsTrue (in_box (sides_of (point_of near.now.sides.lengths)) (point_of p)) }
    requires inner { (k : ℕ) → k < 26
        → IsTrue (in_box (sides_of (point_of near.now.sides.lengths)) (near_point (point_of p) k)) }
    ensures { IsTrue result ↔ IsNearObject recent.now (point_of p) }
{
    recent.is_picture();
    near.mask(recent.values(), near.sides.raster(p)) != 0
}

// The same of any point that leaves room for its neighbours.
fn touches_around(recent: &Grid<P3>, p: P3) -> bool
    requires { IsWithin (negsuc 1) (pos most_coordinate) (point_of p) }
    ensures { IsTrue result ↔ IsNearObject recent.now (point_of p) }
{
    for k in 0..P3::NEAR_COUNT {
        if recent.has(p.near(k)) {
            return true;
        }
    }
    false
}

/// Whether a point is near an object point.
pub(crate) fn touches(near: &NearNumbers<P3>, recent: &Grid<P3>, p: P3) -> bool
    requires box_ { sides_of (point_of near.now.sides.lengths) ≡ recent.now.sides }
    requires inside { IsTrue (in_box (sides_of (point_of near.now.sides.lengths)) (point_of p)) }
    ensures { IsTrue result ↔ IsNearObject recent.now (point_of p) }
{
    if near.all_known() && is_inner(&near.sides, p) {
        touches_inside(near, recent, p)
    } else {
        touches_around(recent, p)
    }
}

// Puts down the object points near a point of which all near neighbours are in the box.
fn gather_inside(
    left: &Grid<P3>,
    near: &NearNumbers<P3>,
    p: P3,
    marks: &mut Grid<P3>,
    numbers: &mut Vec<u32>,
)
    requires near_box { sides_of (point_of near.now.sides.lengths) ≡ left.now.sides }
    requires box_ { marks.old.sides ≡ left.now.sides }
    requires known { 26 ≤ length near.now.gaps.items }
    requires inside { IsTrue (in_box (sides_of (point_of near.now.sides.lengths)) (point_of p)) }
    requires inner { (k : ℕ) → k < 26
        → IsTrue (in_box (sides_of (point_of near.now.sides.lengths)) (near_point (point_of p) k)) }
    requires numbered { AreNumberedOf left.now marks.old numbers.old.items
        (vec_capacity numbers.old) }
    ensures box_ { marks.new.sides ≡ left.now.sides }
    ensures numbered { AreNumberedOf left.now marks.new numbers.new.items
        (vec_capacity numbers.new) }
    ensures capacity { vec_capacity numbers.new ≡ vec_capacity numbers.old }
    ensures points { (q : Where) → IsTrue (at marks.new q) ↔ (IsTrue (at marks.old q)
        ⊎ (IsTrue (at left.now q) × Near q (point_of p))) }
{
    left.is_picture();
    let i = near.sides.raster(p);
    let mut rest = near.mask(left.values(), i);
    while rest != 0 {
        let k = rest.trailing_zeros() as usize;
        rest &= !(1u32 << k);
        put(near.known(i, k), marks, numbers);
    }
}

// The same of any point of the box.
fn gather_around(left: &Grid<P3>, p: P3, marks: &mut Grid<P3>, numbers: &mut Vec<u32>)
    requires box_ { marks.old.sides ≡ left.now.sides }
    requires inside { IsTrue (in_box left.now.sides (point_of p)) }
    requires numbered { AreNumberedOf left.now marks.old numbers.old.items
        (vec_capacity numbers.old) }
    ensures box_ { marks.new.sides ≡ left.now.sides }
    ensures numbered { AreNumberedOf left.now marks.new numbers.new.items
        (vec_capacity numbers.new) }
    ensures capacity { vec_capacity numbers.new ≡ vec_capacity numbers.old }
    ensures points { (q : Where) → IsTrue (at marks.new q) ↔ (IsTrue (at marks.old q)
        ⊎ (IsTrue (at left.now q) × Near q (point_of p))) }
{
    left.is_picture();
    let sides = left.sides();
    for k in 0..P3::NEAR_COUNT {
        let q = p.near(k);
        if left.has(q) {
            put(sides.raster(q), marks, numbers);
        }
    }
}

// The same of any point of the box, by a point beside it where the box has all near neighbours of one.
fn gather_outside(
    left: &Grid<P3>,
    near: &NearNumbers<P3>,
    p: P3,
    marks: &mut Grid<P3>,
    numbers: &mut Vec<u32>,
)
    requires near_box { sides_of (point_of near.now.sides.lengths) ≡ left.now.sides }
    requires box_ { marks.old.sides ≡ left.now.sides }
    requires inside { IsTrue (in_box left.now.sides (point_of p)) }
    requires numbered { AreNumberedOf left.now marks.old numbers.old.items
        (vec_capacity numbers.old) }
    ensures box_ { marks.new.sides ≡ left.now.sides }
    ensures numbered { AreNumberedOf left.now marks.new numbers.new.items
        (vec_capacity numbers.new) }
    ensures capacity { vec_capacity numbers.new ≡ vec_capacity numbers.old }
    ensures points { (q : Where) → IsTrue (at marks.new q) ↔ (IsTrue (at marks.old q)
        ⊎ (IsTrue (at left.now q) × Near q (point_of p))) }
{
    let q = point_beside(&near.sides, p);
    if near.all_known() && is_inner(&near.sides, q) {
        gather_beside(left, near, p, q, marks, numbers);
    } else {
        gather_around(left, p, marks, numbers);
    }
}

// Puts down the object points that are near this one.
fn gather_round(
    left: &Grid<P3>,
    near: &NearNumbers<P3>,
    p: P3,
    marks: &mut Grid<P3>,
    numbers: &mut Vec<u32>,
)
    requires near_box { sides_of (point_of near.now.sides.lengths) ≡ left.now.sides }
    requires box_ { marks.old.sides ≡ left.now.sides }
    requires inside { IsTrue (in_box left.now.sides (point_of p)) }
    requires numbered { AreNumberedOf left.now marks.old numbers.old.items
        (vec_capacity numbers.old) }
    ensures box_ { marks.new.sides ≡ left.now.sides }
    ensures numbered { AreNumberedOf left.now marks.new numbers.new.items
        (vec_capacity numbers.new) }
    ensures capacity { vec_capacity numbers.new ≡ vec_capacity numbers.old }
    ensures points { (q : Where) → IsTrue (at marks.new q) ↔ (IsTrue (at marks.old q)
        ⊎ (IsTrue (at left.now q) × Near q (point_of p))) }
{
    if near.all_known() && is_inner(&near.sides, p) {
        gather_inside(left, near, p, marks, numbers);
    } else {
        gather_outside(left, near, p, marks, numbers);
    }
}

// Puts down the object points that are near those taken from a place on.
fn gather(
    left: &Grid<P3>,
    near: &NearNumbers<P3>,
    taken: &Listed,
    start: u32,
    marks: &mut Grid<P3>,
    numbers: &mut Vec<u32>,
)
    requires near_box { sides_of (point_of near.now.sides.lengths) ≡ left.now.sides }
    requires taken_box { taken.now.sides ≡ left.now.sides }
    requires box_ { marks.old.sides ≡ left.now.sides }
    requires none { AreMarked [] marks.old }
    requires room { HasRoomFor left.now (vec_capacity numbers.old) }
    ensures box_ { marks.new.sides ≡ left.now.sides }
    ensures numbered { AreNumberedOf left.now marks.new numbers.new.items
        (vec_capacity numbers.new) }
    ensures capacity { vec_capacity numbers.new ≡ vec_capacity numbers.old }
    ensures points { (q : Where) → IsTrue (at marks.new q)
        ↔ (IsTrue (at left.now q) × IsNearTo (drop start taken.now.points) q) }
{
    numbers.clear();
    for i in start..taken.len() {
        gather_round(left, near, taken.point(i), marks, numbers);
    }
}

/// Finds the numbers of the object points that are near those taken from a place on. The marks are lent for it, and taken away again.
pub(crate) fn find_round(
    left: &Grid<P3>,
    near: &NearNumbers<P3>,
    taken: &Listed,
    start: u32,
    marks: &mut Grid<P3>,
    numbers: &mut Vec<u32>,
)
    requires near_box { sides_of (point_of near.now.sides.lengths) ≡ left.now.sides }
    requires taken_box { taken.now.sides ≡ left.now.sides }
    requires box_ { marks.old.sides ≡ left.now.sides }
    requires none { AreMarked [] marks.old }
    requires room { HasRoomFor left.now (vec_capacity numbers.old) }
    ensures box_ { marks.new.sides ≡ left.now.sides }
    ensures none { AreMarked [] marks.new }
    ensures round { AreRound left.now (drop start taken.now.points) numbers.new.items }
    ensures few { length numbers.new.items ≤ box_count left.now.sides }
    ensures capacity { vec_capacity numbers.new ≡ vec_capacity numbers.old }
{
    gather(left, near, taken, start, marks, numbers);
    unmark_all(marks, numbers);
    numbers.sort_unstable();
}
