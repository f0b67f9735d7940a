//! A patch of a face, as callers see it: its points, a plane that holds them, and the points that it refused.
//! How a patch grows belongs elsewhere.
ghost use Rattle.std.specs.Prelude.{◌≡◌, ◌<◌, ◌^◌, All, Some, slice_get, map, length};
ghost use Rattle.shape_terms.specs.Naive.{IsNaiveFor};
ghost use Rattle.shape_plane.specs.Pairs.{AreSmallWeights};
ghost use Rattle.shape_refute.specs.Terms.{naive_of};
ghost use Rattle.shape_refute.specs.Weights.{refutation_of};
ghost use Rattle.shape_plane.specs.Verdicts.{IsHeld};
ghost use Rattle.shape_plane.specs.Trials.{Refusal};
ghost use Rattle.shape_plane.specs.Found.{told_point, refused_point};

use crate::growing::Growing;
use crate::refusals::Refusals;
use crate::told::told_anew;
use shape_refute::{Naive, Refutation};
use shape_space::Point;
use std::marker::Model;

/// Points that one naive plane of an axis holds, in the order in which they were taken, and the points beside them that no such plane
/// holds as well, in raster order.
#[derive(Drop)]
pub struct Patch<P: Point> {
    growing: Growing<P>,
    plane: Naive,
    refused: Refusals<P>,
}

impl<P: Point> Model for Patch<P> {
    ghost use Rattle.shape_plane.specs.Found.{AxisPatch, found_patch, IsFound};

    ghost Value = { AxisPatch };

    ghost view = { λ x. record {
      axis = x.growing.axis;
      found = found_patch P.DIM x.growing.points x.plane x.refused;
    } };

    ghost invariant = { λ x. IsFound P.DIM x.growing.axis x.growing.points x.plane x.refused };
}

impl<P: Point> Patch<P> {
    /// The patch of the points that have grown, where these others were refused.
    pub(crate) fn new(growing: Growing<P>, refused: Refusals<P>) -> Patch<P>
        requires few { length refused < 2 ^ 32 }
        requires small { All (λ (r : Refusal). AreSmallWeights r.why) refused }
        ensures axis { result.axis ≡ growing.axis }
        ensures points { result.found.patch.points ≡ growing.points }
        ensures plane { IsNaiveFor growing.axis growing.points result.found.patch.plane }
        ensures refused { result.found.refused ≡ map (told_point (length growing.points)) refused }
    {
        let plane = growing.naive();
        Patch {
            growing,
            plane,
            refused,
        }
    }

    /// A proper naive plane of the axis of the face that holds the points.
    pub fn naive(&self) -> Naive
        ensures plane { naive_of P.DIM result ≡ self.now.found.patch.plane }
        ensures held { IsHeld P.DIM self.now.axis self.now.found.patch.points result }
    {
        self.plane
    }

    /// The number of points.
    pub fn len(&self) -> u32
        ensures { result ≡ length self.now.found.patch.points }
    {
        self.growing.len()
    }

    /// The point at a place, from 0 on.
    pub fn point(&self, i: u32) -> P
        requires { i < length self.now.found.patch.points }
        ensures { slice_get self.now.found.patch.points i ≡ Some (P.coords result) }
    {
        self.growing.point(i)
    }

    /// The number of refused points.
    pub fn refused(&self) -> u32
        ensures { result ≡ length self.now.found.refused }
    {
        self.refused.len() as u32
    }

    /// The refused point at a place, from 0 on, with the weights that refute the points of the patch with this one put last.
    pub fn refusal(&self, i: u32) -> (P, Refutation)
        requires { i < length self.now.found.refused }
        ensures refused { slice_get self.now.found.refused i
            ≡ Some (refused_point (P.coords result.0) (refutation_of result.1)) }
        ensures small { AreSmallWeights (refutation_of result.1) }
    {
        let r = self.refused.get(i as usize);
        (r.point, told_anew(r.count, self.len(), &r.why))
    }
}
