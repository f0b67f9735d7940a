//! Points of a box, each at most once, in the order in which they came.
//! Which points these are belongs elsewhere.
ghost use Rattle.std.specs.Prelude.{◌≡◌, ◌<◌, ◌≤◌, ◌+◌, ◌^◌, ◌↔◌, [], ◌∷◌, ◌++◌, IsTrue, IfOk, Some, Contains, length, map, drop, slice_get, vec_capacity};
ghost use Rattle.shape_terms.specs.Limits.{most_points};
ghost use Rattle.shape_terms.specs.Points.{Point as Where, sides_of, in_box, box_count};
ghost use Rattle.shape_terms.specs.Refutations.{Refutes};
ghost use Rattle.shape_refute.specs.Weights.{refutation_of};
ghost use Rattle.judge_outline.specs.Terms.{point_of};
ghost use Rattle.judge_outline.specs.Listings.{listing_of};

use shape_refute::{Refutation, refutes};
use shape_space::{NoMemory, P3, Sides};
use std::alloc::Global;
use std::marker::Model;

/// Points of a box, each at most once.
#[derive(Drop)]
pub(crate) struct Listed {
    sides: Sides<P3>,
    points: Vec<P3>,
}

impl Model for Listed {
    ghost use Rattle.std.specs.Prelude.{map, vec_capacity};
    ghost use Rattle.shape_terms.specs.Points.{sides_of};
    ghost use Rattle.judge_outline.specs.Terms.{point_of};
    ghost use Rattle.judge_outline.specs.Listings.{Listing, listing_of, AreListed};

    ghost Value = { Listing };

    ghost view = { λ l. listing_of (sides_of (point_of l.sides.lengths)) (map point_of l.points.items)
        (vec_capacity l.points) };

    ghost invariant = { λ l. AreListed (sides_of (point_of l.sides.lengths))
        (map point_of l.points.items) };
}

// Whether weights refute the points from a place on with this point put last, which the list has room for.
fn refutes_with(points: &mut Vec<P3>, start: usize, p: P3, axis: usize, why: &Refutation) -> bool
    requires start { start ≤ length points.old.items }
    requires room { length points.old.items < vec_capacity points.old }
    requires axis { axis < 3 }
    ensures answer { IsTrue result ↔ Refutes 3 axis
        (drop start (map point_of points.old.items) ++ point_of p ∷ []) (refutation_of why.now) }
    ensures same { points.new.items ≡ points.old.items }
    ensures capacity { vec_capacity points.new ≡ vec_capacity points.old }
{
    points.push_reserved(p);
    let refuted = refutes(&points[start..], axis, why);
    points.pop();
    refuted
}

impl Listed {
    /// No point of a box, with room for so many and one more. It takes all its memory here.
    pub(crate) fn new(alloc: Global, sides: Sides<P3>, most: u32) -> Result<Listed, NoMemory>
        ensures { IfOk result (λ l. l
            ≡ listing_of (sides_of (point_of sides.lengths)) [] (most + 1)) }
    {
        let points = Vec::with_capacity(alloc, most as usize + 1)?;
        Ok(Listed { sides, points })
    }

    /// The number of points.
    pub(crate) fn len(&self) -> u32
        ensures value { result ≡ length self.now.points }
        ensures few { result ≤ box_count self.now.sides }
        ensures small { box_count self.now.sides ≤ most_points }
    {
        let _ = &self.sides;
        self.points.len() as u32
    }

    /// The point at a place, from 0 on.
    pub(crate) fn point(&self, i: u32) -> P3
        requires { i < length self.now.points }
        ensures value { slice_get self.now.points i ≡ Some (point_of result) }
        ensures inside { IsTrue (in_box self.now.sides (point_of result)) }
    {
        self.points[i as usize]
    }

    /// Puts a point of the box last. It leaves room for one more.
    pub(crate) fn push(&mut self, p: P3)
        requires room { length self.old.points + 1 < self.old.room }
        requires inside { IsTrue (in_box self.old.sides (point_of p)) }
        requires new { Contains self.old.points (point_of p) → ⊥ }
        ensures { self.new
            ≡ listing_of self.old.sides (self.old.points ++ point_of p ∷ []) self.old.room }
    {
        let _ = &self.sides;
        self.points.push_reserved(p);
    }

    /// Takes all points from the list.
    pub(crate) fn clear(&mut self)
        ensures { self.new ≡ listing_of self.old.sides [] self.old.room }
    {
        let _ = &self.sides;
        self.points.clear();
    }

    /// Whether weights refute the points from a place on with this point put last.
    pub(crate) fn are_refuted(&mut self, start: u32, p: P3, axis: usize, why: &Refutation) -> bool
        requires start { start ≤ length self.old.points }
        requires room { length self.old.points < self.old.room }
        requires axis { axis < 3 }
        ensures answer { IsTrue result ↔ Refutes 3 axis
            (drop start self.old.points ++ point_of p ∷ []) (refutation_of why.now) }
        ensures same { self.new ≡ self.old }
    {
        refutes_with(&mut self.points, start as usize, p, axis, why)
    }
}
