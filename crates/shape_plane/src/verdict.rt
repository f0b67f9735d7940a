//! The verdict on a list of points for an axis: a line or plane that holds it, or weights that refute all of them.
//! Pairs are added one at a time, until the slopes that meet them break none. Weights are written where the caller has room for them.
ghost use Rattle.std.specs.Prelude.{◌≡◌, ◌<◌, ◌≤◌, ◌^◌, ◌↔◌, IsTrue, IfOk, map, length};
ghost use Rattle.shape_plane.specs.Pairs.{AreInside, IsPair};
ghost use Rattle.shape_plane.specs.Verdicts.{IsVerdict, IsDecided, IsFlatFor, AreRowsOf, HasGrown, is_flat as says_flat, verdict_told as told};

use crate::held::{Held, Tested, try_slopes};
use crate::known::Known;
use crate::pair::Pair;
use crate::weights::nothing;
use shape_refute::{Naive, Refutation};
use shape_space::{NoMemory, Point};
use std::alloc::Global;

/// Whether a naive line or plane of an axis holds a list of points, with the reason.
#[derive(Clone, Copy)]
pub enum Verdict {
    /// This proper line or plane of the axis holds all points.
    Flat(Naive),
    /// By these weights no proper line or plane of the axis holds them.
    Refused(Refutation),
}

/// The line or plane that holds a list, where some pairs of it are known; none where the weights in `why` refute the list. The pairs that
/// were added stand behind those that were known.
///
/// Each round adds a pair that the slopes of the pairs before it break, so it was not among them; there are no more rounds than pairs.
pub fn decide_with<P: Point>(
    points: &[P],
    axis: usize,
    known: &mut Known,
    why: &mut Refutation,
) -> Result<Option<Held>, NoMemory>
    requires axis { axis < P.DIM }
    requires some { 1 ≤ length points.now }
    requires few { length points.now < 2 ^ 31 }
    requires inside { AreInside P.MAX_SIDE (map P.coords points.now) }
    requires known { AreRowsOf (length points.now) axis (map P.coords points.now) known.old }
    ensures decided { IfOk result
        (λ h. IsDecided P.DIM axis (map P.coords points.now) h why.new) }
    ensures grown { HasGrown (length points.now) axis
        (map P.coords points.now) known.old known.new }
{
    for _round in 0..u64::MAX {
        match known.find(points, axis, why) {
            None => return Ok(None),
            Some(s) => match try_slopes(points, axis, &s.a) {
                Tested::Holds(held) => return Ok(Some(held)),
                Tested::Breaks(pair) => known.add(points, axis, pair)?,
            },
        }
    }
    // Never reached: memory ends before there are so many pairs.
    Err(NoMemory)
}

/// The same, where a pair more is to be met.
pub fn decide_by<P: Point>(
    points: &[P],
    axis: usize,
    known: &mut Known,
    pair: Pair,
    why: &mut Refutation,
) -> Result<Option<Held>, NoMemory>
    requires axis { axis < P.DIM }
    requires some { 1 ≤ length points.now }
    requires few { length points.now < 2 ^ 31 }
    requires inside { AreInside P.MAX_SIDE (map P.coords points.now) }
    requires pair { IsPair (length points.now) pair }
    requires known { AreRowsOf (length points.now) axis (map P.coords points.now) known.old }
    ensures decided { IfOk result
        (λ h. IsDecided P.DIM axis (map P.coords points.now) h why.new) }
    ensures grown { HasGrown (length points.now) axis
        (map P.coords points.now) known.old known.new }
{
    known.add(points, axis, pair)?;
    decide_with(points, axis, known, why)
}

// The verdict without the extremes.
fn verdict_of(held: Option<Held>, why: Refutation) -> Verdict
    ensures { result ≡ told held why }
{
    match held {
        Some(held) => Verdict::Flat(held.plane),
        None => Verdict::Refused(why),
    }
}

/// Decides whether a proper naive line or plane of an axis holds all points of a list. No run of the program makes this call: it is for those who use
/// the crate, for every list of points in range; `Growing::try_add` gives the same answer as the list grows.
///
/// # Errors
///
/// `NoMemory` where there is none for the pairs that were looked at.
pub fn decide<P: Point>(alloc: Global, points: &[P], axis: usize) -> Result<Verdict, NoMemory>
    requires axis { axis < P.DIM }
    requires some { 1 ≤ length points.now }
    requires few { length points.now < 2 ^ 31 }
    requires inside { AreInside P.MAX_SIDE (map P.coords points.now) }
    ensures verdict { IfOk result (IsVerdict P.DIM axis (map P.coords points.now)) }
    ensures flat { IfOk result (λ v. IsTrue (says_flat v)
        ↔ IsFlatFor axis (map P.coords points.now)) }
{
    let mut known = Known::new(alloc, axis)?;
    let mut why = nothing();
    let held = decide_with(points, axis, &mut known, &mut why)?;
    Ok(verdict_of(held, why))
}
