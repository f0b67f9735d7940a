//! The ellipse of the plane with the same second moments as an object: its axes by halves, exact to the last thousandth.
//! Whether an axis is less than a number stands in `below`.
ghost use Rattle.std.specs.Prelude.{◌≡◌, ◌≤◌, MatchOption};
ghost use Rattle.measure_terms.specs.Ellipse.{IsRounded, IsEllipse};
ghost use Rattle.measuring.specs.Matrices.{IsBelow};
ghost use Rattle.measuring.specs.MomentsTold.{moments_told, ellipse_told};

use crate::below::Axis;
use crate::matrix::Matrix;
use crate::moments::Moments;

/// The ellipse of the plane with the same second moments as an object whose points are unit squares.
#[derive(Clone, Copy, Debug, PartialEq, Eq)]
pub struct Ellipse {
    /// The major axis from end to end, in thousandths, rounded to nearest.
    pub major: u64,
    /// The minor axis likewise.
    pub minor: u64,
    /// The vector (`double_x`, `double_y`) makes twice the angle with the x axis that the major axis makes, from x towards y:
    /// the angle is half of `atan2(double_y, double_x)`. Of a circle, which has no such angle, both are 0.
    pub double_x: i128,
    /// The other coordinate of that vector.
    pub double_y: i128,
}

impl Matrix {
    // An axis in thousandths, rounded to nearest.
    fn axis(&self, axis: Axis) -> u64
        requires { 1 ≤ self.now.count }
        ensures { IsRounded (IsBelow axis self.now) result }
    {
        let mut low: u64 = 0;
        let mut high: u64 = 268_435_456;
        while low < high {
            let middle = (low + high) / 2;
            if self.is_below(axis, middle) {
                high = middle;
            } else {
                low = middle + 1;
            }
        }
        low
    }
}

impl Moments {
    /// The ellipse of the plane with the same second moments, where each point is a unit square about itself, so that one
    /// point has the axes of such a square. There is none where there is no point.
    pub fn ellipse(&self) -> Option<Ellipse>
        ensures { MatchOption result (self.now.count ≡ 0)
            (λ e. IsEllipse (moments_told self.now) (ellipse_told e)) }
    {
        if self.count == 0 {
            return None;
        }
        let matrix = self.matrix();
        Some(Ellipse {
            major: matrix.axis(Axis::Major),
            minor: matrix.axis(Axis::Minor),
            double_x: matrix.double_x,
            double_y: matrix.double_y,
        })
    }
}
