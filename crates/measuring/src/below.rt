//! Whether an axis of an object is less than a number of thousandths and a half, by whole numbers alone.
//! Another precision is a change of the definition and of the numbers here.
ghost use Rattle.std.specs.Prelude.{◌≡◌, ◌≤◌, ◌*◌, ◌^◌, ◌↔◌, IsTrue, pos, ◌-ℤ◌, ◌*ℤ◌, nat_abs};
ghost use Rattle.shape_terms.specs.Limits.{most_points};
ghost use Rattle.measure_terms.specs.Ellipse.{room};
ghost use Rattle.measuring.specs.MomentsFitting.{most_axis};
ghost use Rattle.measuring.specs.Matrices.{IsBelow};

use crate::matrix::Matrix;
use crate::wide::{squares_less, squares_more};

/// One of the two axes of an ellipse.
#[derive(Clone, Copy)]
pub(crate) enum Axis {
    /// The longer one.
    Major,
    /// The shorter one.
    Minor,
}

// The square of a product three times.
fn thrice(n: u32, odd: u64) -> u128
    requires points { n ≤ most_points }
    requires odd { odd ≤ 2 ^ 30 }
    ensures value { result ≡ 3 * (n * n) * (odd * odd) }
    ensures small { result ≤ 2 ^ 122 }
{
    3 * (n as u128 * n as u128) * (odd as u128 * odd as u128)
}

// The size of a number eight million times.
fn size(z: i128) -> u128
    requires { nat_abs z ≤ 2 ^ 94 }
    ensures value { result ≡ 8000000 * nat_abs z }
    ensures small { result ≤ 2 ^ 117 }
{
    8_000_000 * z.unsigned_abs()
}

// A number eight million times.
fn scaled(z: i128) -> i128
    requires { nat_abs z ≤ 2 ^ 94 }
    ensures value { result ≡ pos 8000000 *ℤ z }
    ensures small { nat_abs result ≤ 2 ^ 117 }
{
    8_000_000 * z
}

// What is left of a number.
fn rest(a: u128, z: i128) -> i128
    requires a_small { a ≤ 2 ^ 122 }
    requires z_small { nat_abs z ≤ 2 ^ 117 }
    ensures value { result ≡ pos a -ℤ z }
    ensures small { nat_abs result ≤ 2 ^ 123 }
{
    a as i128 - z
}

impl Matrix {
    // What the trace leaves of the square of an axis of so many thousandths and a half, as the definition weighs them.
    fn room(&self, r: u64) -> i128
        requires { r ≤ most_axis }
        ensures value { result ≡ room self.now.count self.now.trace r }
        ensures small { nat_abs result ≤ 2 ^ 123 }
    {
        rest(thrice(self.count, 2 * r + 1), scaled(self.trace))
    }

    /// Whether an axis in thousandths is less than a number and a half.
    pub(crate) fn is_below(&self, axis: Axis, r: u64) -> bool
        requires { r ≤ most_axis }
        ensures { IsTrue result ↔ IsBelow axis self.now r }
    {
        let room = self.room(r);
        let (x, y) = (size(self.double_x), size(self.double_y));
        match axis {
            Axis::Major => room > 0 && squares_less(x, y, room.unsigned_abs()),
            Axis::Minor => room > 0 || squares_more(x, y, room.unsigned_abs()),
        }
    }
}
