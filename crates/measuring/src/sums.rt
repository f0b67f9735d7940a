//! The moments of an object as its points come one after the other.
//! Each function here says what one point more does to one sum.
ghost use Rattle.std.specs.Prelude.{◌≡◌, ◌<◌, ◌≤◌, ◌+◌, ◌*◌, [], IsTrue};
ghost use Rattle.shape_terms.specs.Limits.{most_points, most_coordinate};
ghost use Rattle.shape_terms.specs.Points.{sides_of, in_box};
ghost use Rattle.measure_terms.specs.Moments.{place, moments_of};
ghost use Rattle.measuring.specs.MomentsFitting.{most_product};
ghost use Rattle.measuring.specs.MomentsSoFar.{moments_with};
ghost use Rattle.measuring.specs.MomentsTold.{moments_told};

use crate::moments::Moments;
use shape_space::{Point, Sides};

// The coordinate of a point of the box, and 0 on an axis that the space does not have.
fn place<P: Point>(sides: Sides<P>, p: P, k: usize) -> u32
    requires { IsTrue (in_box (sides_of (P.coords sides.lengths)) (P.coords p)) }
    ensures value { result ≡ place k (P.coords p) }
    ensures small { result < most_coordinate }
{
    if k < P::DIM { p.coord(k) as u32 } else { 0 }
}

// A sum of the coordinates of so many points, with one more.
fn with_place(sum: u64, count: u32, a: u32) -> u64
    requires few { count < most_points }
    requires place { a < most_coordinate }
    requires sum { sum ≤ most_coordinate * count }
    ensures value { result ≡ sum + a }
    ensures small { result ≤ most_coordinate * (count + 1) }
{
    sum + a as u64
}

// A sum of the products of two coordinates of so many points, with one more.
fn with_product(sum: u64, count: u32, a: u32, b: u32) -> u64
    requires few { count < most_points }
    requires place { a < most_coordinate }
    requires other { b < most_coordinate }
    requires sum { sum ≤ most_product * count }
    ensures value { result ≡ sum + a * b }
    ensures small { result ≤ most_product * (count + 1) }
{
    sum + a as u64 * b as u64
}

impl Moments {
    /// The moments of no point.
    pub fn none() -> Moments
        ensures { moments_told result ≡ moments_of [] }
    {
        Moments {
            count: 0,
            x: 0,
            y: 0,
            z: 0,
            xx: 0,
            xy: 0,
            yy: 0,
            xz: 0,
            yz: 0,
            zz: 0,
        }
    }

    /// The moments with one more point, of a box with these sides.
    pub(crate) fn with<P: Point>(&self, sides: Sides<P>, p: P) -> Moments
        requires few { self.now.count < most_points }
        requires inside { IsTrue (in_box (sides_of (P.coords sides.lengths)) (P.coords p)) }
        ensures { moments_told result ≡ moments_with (moments_told self.now) (P.coords p) }
    {
        let n = self.count;
        let (x, y, z) = (place(sides, p, 0), place(sides, p, 1), place(sides, p, 2));
        Moments {
            count: n + 1,
            x: with_place(self.x, n, x),
            y: with_place(self.y, n, y),
            z: with_place(self.z, n, z),
            xx: with_product(self.xx, n, x, x),
            xy: with_product(self.xy, n, x, y),
            yy: with_product(self.yy, n, y, y),
            xz: with_product(self.xz, n, x, z),
            yz: with_product(self.yz, n, y, z),
            zz: with_product(self.zz, n, z, z),
        }
    }
}
