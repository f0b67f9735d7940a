//! The feature transform of a picture: a nearest background point of each object point.
//! How they are found stands in `transform.rt`; how they are kept may be changed here.
ghost use Rattle.std.specs.Prelude.{◌≡◌, ◌<◌, Some, length, slice_get, negsuc, pos};
ghost use Rattle.shape_terms.specs.Limits.{most_coordinate};
ghost use Rattle.shape_terms.specs.FramedBox.{IsWithin};

use shape_space::{Point, Sides};
use std::marker::Model;

/// A nearest background point of each object point of a grid, in raster order of the object points.
///
/// It takes four bytes for each: a point is kept as its number in the framed box.
#[derive(Drop)]
pub struct Features<P: Point> {
    pub(crate) sides: Sides<P>,
    pub(crate) numbers: Vec<u32>,
}

impl<P: Point> Model for Features<P> {
    ghost use Rattle.std.specs.Prelude.{◌<◌, ◌^◌, List, length};
    ghost use Rattle.shape_terms.specs.Points.{Point, sides_of};
    ghost use Rattle.shape_dist.specs.Features.{framed_points};

    ghost Value = { List Point };

    ghost view = { λ f. framed_points (sides_of (P.coords f.sides.lengths)) f.numbers.items };

    ghost invariant = { λ f. length f.numbers.items < 2 ^ 32 };
}

impl<P: Point> Features<P> {
    /// The number of points, one for each object point.
    pub fn len(&self) -> u32
        ensures { result ≡ length self.now }
    {
        self.numbers.len() as u32
    }

    /// A nearest background point of the object point that is number `i` in raster order, from 0 on.
    pub fn point(&self, i: u32) -> P
        requires { i < length self.now }
        ensures item { slice_get self.now i ≡ Some (P.coords result) }
        ensures within { IsWithin (negsuc 0) (pos most_coordinate) (P.coords result) }
    {
        self.sides.framed_point(self.numbers[i as usize])
    }
}
