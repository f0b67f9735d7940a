//! How far the major axis of an object is turned from the x axis: its cosine and its sine, exact to the last part.
//! Another precision is a change of the definition and of the numbers here.
ghost use Rattle.std.specs.Prelude.{◌≡◌, ◌<◌, ◌≤◌, ◌+◌, ◌*◌, ◌^◌, ◌↔◌, IsTrue, pos, ◌<ℤ◌, ◌≤ℤ◌, nat_abs};
ghost use Rattle.measure_terms.specs.Ellipse.{square, IsRounded};
ghost use Rattle.measuring.specs.MomentsTold.{moments_told, turn_told};
ghost use Rattle.measuring.specs.Parts.{along, IsLess};
ghost use Rattle.measuring.specs.Turns.{most_parts, excess, IsTurn};

use crate::matrix::Matrix;
use crate::moments::Moments;
use crate::wide::{squares_less, squares_more};

/// The cosine and the sine of the angle that the major axis of an ellipse makes with the x axis, from x towards y, each in
/// fifty-thousandths and rounded to nearest. The angle is between -90 and 90 degrees, and that of a circle is 0.
#[derive(Clone, Copy, Debug, PartialEq, Eq)]
pub struct Turn {
    /// The cosine.
    pub cosine: u32,
    /// The sine.
    pub sine: i32,
}

/// The cosine of an angle, or the size of its sine.
#[derive(Clone, Copy)]
pub(crate) enum Part {
    Cosine,
    Sine,
}

// What is compared of a number of parts and a half, as the definition weighs it.
fn excess(r: u64) -> i128
    requires { r ≤ most_parts }
    ensures value { result ≡ excess r }
    ensures small { nat_abs result ≤ 5000200001 }
{
    let odd = (2 * r + 1) as i128;
    odd * odd - 5_000_000_000
}

// A product of two sizes.
fn product(a: i128, b: i128) -> u128
    requires a_small { nat_abs a ≤ 5000200001 }
    requires b_small { nat_abs b ≤ 2 ^ 94 }
    ensures value { result ≡ nat_abs a * nat_abs b }
    ensures small { result < 2 ^ 127 }
{
    a.unsigned_abs() * b.unsigned_abs()
}

// A number of parts with the sign of another number.
fn signed(size: u64, like: i128) -> i32
    requires { size ≤ most_parts }
    ensures size { nat_abs result ≡ size }
    ensures down { pos 0 ≤ℤ like → pos 0 ≤ℤ result }
    ensures up { like <ℤ pos 0 → result ≤ℤ pos 0 }
{
    if like < 0 {
        -(size as i32)
    } else {
        size as i32
    }
}

impl Matrix {
    // What a part goes by: how far the vector of twice the angle reaches along x, or the other way.
    fn along(&self, part: Part) -> i128
        ensures value { result ≡ along part self.now }
        ensures small { nat_abs result ≤ 2 ^ 94 }
    {
        match part {
            Part::Cosine => self.double_x,
            Part::Sine => -self.double_x,
        }
    }

    // Whether a part is less than a number and a half.
    fn is_part_below(&self, part: Part, r: u64) -> bool
        requires { r ≤ most_parts }
        ensures { IsTrue result ↔ IsLess part self.now r }
    {
        let excess = excess(r);
        let z = self.along(part);
        let (x, y) = (
            product(excess, self.double_x),
            product(excess, self.double_y),
        );
        let most = product(5_000_000_000, z);
        if excess > 0 {
            z < 0 || squares_more(x, y, most)
        } else {
            z < 0 && squares_less(x, y, most)
        }
    }

    // A part, rounded to nearest.
    fn part(&self, part: Part) -> u64
        requires { 1 ≤ square self.now.double_x + square self.now.double_y }
        ensures rounded { IsRounded (IsLess part self.now) result }
        ensures most { result ≤ most_parts }
    {
        let mut low: u64 = 0;
        let mut high: u64 = 50_000;
        while low < high {
            let middle = (low + high) / 2;
            if self.is_part_below(part, middle) {
                high = middle;
            } else {
                low = middle + 1;
            }
        }
        low
    }

    // Whether both axes are as long.
    fn is_round(&self) -> bool
        ensures { IsTrue result
            ↔ square self.now.double_x + square self.now.double_y ≡ 0 }
    {
        self.double_x == 0 && self.double_y == 0
    }
}

impl Moments {
    /// How far the major axis of the ellipse with these moments is turned.
    pub fn turn(&self) -> Turn
        ensures { IsTurn (moments_told self.now) (turn_told result) }
    {
        let matrix = self.matrix();
        if matrix.is_round() {
            return Turn {
                cosine: 50_000,
                sine: 0,
            };
        }
        Turn {
            cosine: matrix.part(Part::Cosine) as u32,
            sine: signed(matrix.part(Part::Sine), matrix.double_y),
        }
    }
}
