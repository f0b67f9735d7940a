//! The covariance matrix of an object of the plane, each entry 12 * n * n times, where it has n points.
//! All is exact; the bounds say that it fits.
ghost use Rattle.std.specs.Prelude.{◌≡◌, ◌≤◌, ◌*◌, ◌^◌, pos, ◌-ℤ◌};
ghost use Rattle.measuring.specs.Matrices.{TellsMatrix};
ghost use Rattle.measuring.specs.MomentsTold.{moments_told};

use crate::matrix::Matrix;
use crate::moments::Moments;

// A product twelve times.
fn twelve(a: u64, b: u64) -> u128
    requires { a * b ≤ 2 ^ 90 }
    ensures { result ≡ 12 * (a * b) }
{
    12 * (a as u128 * b as u128)
}

// A difference of two sums.
fn difference(a: u128, b: u128) -> i128
    requires a_small { a ≤ 2 ^ 100 }
    requires b_small { b ≤ 2 ^ 100 }
    ensures { result ≡ pos a -ℤ pos b }
{
    a as i128 - b as i128
}

impl Moments {
    /// The matrix of the plane.
    pub(crate) fn matrix(&self) -> Matrix
        ensures { TellsMatrix (moments_told self.now) result }
    {
        let n = self.count as u64;
        let own = n as u128 * n as u128;
        let (xx, yy) = (twelve(n, self.xx) + own, twelve(n, self.yy) + own);
        let (x, y) = (twelve(self.x, self.x), twelve(self.y, self.y));
        Matrix {
            count: self.count,
            trace: difference(xx + yy, x + y),
            double_x: difference(xx + y, yy + x),
            double_y: difference(2 * twelve(n, self.xy), 2 * twelve(self.x, self.y)),
        }
    }
}
