//! The measures of one object.
//! A further measure is one more field here and of `Told`; what is counted has a bound in `Fitting`.
ghost use Rattle.measuring.specs.Fitting.{Fitting};

use crate::span::Span;
use std::alloc::AllocError;

/// The measures of one object.
pub struct Measures {
    /// How many points it has.
    pub area: u32,
    /// Where it lies along the first axis.
    pub x: Span,
    /// Where it lies along the second axis.
    pub y: Span,
    /// Where it lies along the third axis: in the plane all numbers are 0.
    pub z: Span,
    /// The greatest squared distance of its points to the background.
    pub depth: u64,
    /// The raster number of the first of its points with that distance.
    pub deepest: Option<u32>,
    /// How many of its points are left.
    pub skeleton: u32,
    /// How many points left have one near neighbour left.
    pub ends: u32,
    /// How many points left have three or more near neighbours left.
    pub junctions: u32,
    /// How many sides of its points are exposed: the side neighbours there are not object.
    pub exposed: u64,
    /// Whether one of its points lies at the border of the box.
    pub touches: bool,
    ghost fits: { Fitting area x y z skeleton ends junctions exposed },
}

impl Clone for Measures {
    ghost use Rattle.std.specs.Prelude.{◌≡◌, ⊤};

    ghost is_clone = { λ m n. n ≡ m };

    ghost is_infallible = { λ _. ⊤ };

    fn clone(&self) -> Result<Measures, AllocError> {
        Ok(*self)
    }
}

impl Copy for Measures {}
