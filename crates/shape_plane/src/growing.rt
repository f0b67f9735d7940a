//! A list of points that grows while some line or plane of an axis holds it.
//! The present line or plane is tried first, so a point that it holds costs no search.
ghost use Rattle.std.specs.Prelude.{◌≡◌, ◌<◌, ◌^◌, ◌+◌, ◌-◌, ◌↔◌, [], ◌∷◌, ◌++◌, IsTrue, IfOk, Some, slice_get, map, length, pos, ◌-ℤ◌};
ghost use Rattle.shape_terms.specs.FramedBox.{IsWithin};
ghost use Rattle.shape_plane.specs.Pairs.{AreInside, IsPair};
ghost use Rattle.shape_plane.specs.Verdicts.{IsHeld, IsFlatFor, AreRowsOf};
ghost use Rattle.shape_plane.specs.Growth.{HasExtended, IsAdded, IsOffered, says_yes};

use crate::held::{Held, Tested, try_last};
use crate::known::Known;
use crate::pair::Pair;
use crate::verdict::{decide_by, decide_with};
use crate::weights::nothing;
use shape_refute::{Naive, Refutation};
use shape_space::{NoMemory, Point};
use std::alloc::Global;
use std::marker::Model;

// So many points have room from the first on.
const USUAL: usize = 32;

/// Whether a point was taken.
#[derive(Clone, Copy)]
pub enum Added {
    /// It was put last.
    Yes,
    /// By these weights no line or plane of the axis holds the points with this one put last.
    No(Refutation),
}

// Puts a point last, where some line or plane of the axis holds the points with it; else nothing changes but the weights in `why`.
//
// The pair is of the points with this one, and is not met by what holds the others. The pairs that a refused point brought are
// forgotten, also those of other points: slopes are found in time by the number of pairs.
fn extend<P: Point>(
    points: &mut Vec<P>,
    known: &mut Known,
    axis: usize,
    p: P,
    pair: Pair,
    why: &mut Refutation,
) -> Result<Option<Held>, NoMemory>
    requires axis { axis < P.DIM }
    requires few { length points.old.items < 2 ^ 31 - 1 }
    requires inside { AreInside P.MAX_SIDE (map P.coords points.old.items) }
    requires point { IsWithin (pos 0) (P.MAX_SIDE -ℤ pos 1) (P.coords p) }
    requires pair { IsPair (length points.old.items + 1) pair }
    requires known { AreRowsOf (length points.old.items) axis
        (map P.coords points.old.items) known.old }
    ensures extended { HasExtended P.coords P.DIM axis
        points.old.items points.new.items p result why.new }
    ensures known { AreRowsOf (length points.new.items) axis
        (map P.coords points.new.items) known.new }
{
    let count = points.len();
    let mark = known.mark();
    points.push(p)?;
    match decide_by(points, axis, known, pair, why) {
        Ok(Some(held)) => Ok(Some(held)),
        Ok(None) => {
            points.truncate(count);
            known.reset(mark);
            Ok(None)
        }
        Err(e) => {
            points.truncate(count);
            known.reset(mark);
            Err(e)
        }
    }
}

/// Points that some naive line or plane of an axis holds, in the order in which they were taken.
#[derive(Drop)]
pub struct Growing<P: Point> {
    points: Vec<P>,
    known: Known,
    axis: usize,
    held: Held,
}

impl<P: Point> Model for Growing<P> {
    ghost use Rattle.std.specs.Prelude.{map};
    ghost use Rattle.shape_plane.specs.Growth.{Grown, IsGrowing};

    ghost Value = { Grown };

    ghost view = { λ g. record { axis = g.axis; points = map P.coords g.points.items } };

    ghost invariant = { λ g. IsGrowing P.DIM P.MAX_SIDE
        g.axis (map P.coords g.points.items) g.known g.held };
}

impl<P: Point> Growing<P> {
    /// One point alone.
    pub fn first(alloc: Global, p: P, axis: usize) -> Result<Growing<P>, NoMemory>
        requires axis { axis < P.DIM }
        requires inside { IsWithin (pos 0) (P.MAX_SIDE -ℤ pos 1) (P.coords p) }
        ensures axis { IfOk result (λ g. g.axis ≡ axis) }
        ensures points { IfOk result (λ g. g.points ≡ P.coords p ∷ []) }
    {
        let mut points = Vec::with_capacity(alloc, USUAL)?;
        points.push(p)?;
        let mut known = Known::new(alloc, axis)?;
        let mut why = nothing();
        match decide_with(&points, axis, &mut known, &mut why)? {
            Some(held) => Ok(Growing {
                points,
                known,
                axis,
                held,
            }),
            None => unreachable!(),
        }
    }

    /// The number of points.
    pub fn len(&self) -> u32
        ensures { result ≡ length self.now.points }
    {
        self.points.len() as u32
    }

    /// The point at a place, from 0 on.
    pub fn point(&self, k: u32) -> P
        requires { k < length self.now.points }
        ensures { slice_get self.now.points k ≡ Some (P.coords result) }
    {
        self.points[k as usize]
    }

    /// Puts a point last, where some proper naive line or plane of the axis holds the points with it.
    ///
    /// # Errors
    ///
    /// `NoMemory` where there is none; the points are as before then.
    pub fn try_add(&mut self, p: P) -> Result<Added, NoMemory>
        requires inside { IsWithin (pos 0) (P.MAX_SIDE -ℤ pos 1) (P.coords p) }
        requires few { length self.old.points < 2 ^ 31 - 1 }
        ensures added { IsAdded P.DIM self.old self.new (P.coords p) result }
        ensures exactly { IfOk result (λ a. IsTrue (says_yes a)
            ↔ IsFlatFor self.old.axis (self.old.points ++ P.coords p ∷ [])) }
    {
        let mut why = nothing();
        if self.add_or_refute(p, &mut why)? {
            Ok(Added::Yes)
        } else {
            Ok(Added::No(why))
        }
    }

    /// The same, as whether the point was taken; where it was not, the weights stand in `why`.
    pub fn add_or_refute(&mut self, p: P, why: &mut Refutation) -> Result<bool, NoMemory>
        requires inside { IsWithin (pos 0) (P.MAX_SIDE -ℤ pos 1) (P.coords p) }
        requires few { length self.old.points < 2 ^ 31 - 1 }
        ensures added { IsOffered P.DIM self.old self.new (P.coords p) result why.new }
        ensures exactly { IfOk result (λ b. IsTrue b
            ↔ IsFlatFor self.old.axis (self.old.points ++ P.coords p ∷ [])) }
    {
        match try_last(self.axis, &self.held, self.points.len() as u32, p) {
            Tested::Holds(held) => {
                self.points.push(p)?;
                self.held = held;
                Ok(true)
            }
            Tested::Breaks(pair) => self.add_by(p, pair, why),
        }
    }

    // The same, where the present line or plane breaks this pair.
    fn add_by(&mut self, p: P, pair: Pair, why: &mut Refutation) -> Result<bool, NoMemory>
        requires inside { IsWithin (pos 0) (P.MAX_SIDE -ℤ pos 1) (P.coords p) }
        requires few { length self.old.points < 2 ^ 31 - 1 }
        requires pair { IsPair (length self.old.points + 1) pair }
        ensures added { IsOffered P.DIM self.old self.new (P.coords p) result why.new }
        ensures exactly { IfOk result (λ b. IsTrue b
            ↔ IsFlatFor self.old.axis (self.old.points ++ P.coords p ∷ [])) }
    {
        match extend(&mut self.points, &mut self.known, self.axis, p, pair, why)? {
            Some(held) => {
                self.held = held;
                Ok(true)
            }
            None => Ok(false),
        }
    }

    /// A proper naive line or plane of the axis that holds the points.
    pub fn naive(&self) -> Naive
        ensures { IsHeld P.DIM self.now.axis self.now.points result }
    {
        self.held.plane
    }
}
