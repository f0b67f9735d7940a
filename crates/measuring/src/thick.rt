//! The sums of the diameters at the points of one object, and what a table tells of them.
//! All is in thousandths; another precision is a change here and of the same numbers in `Rounding`.
ghost use Rattle.std.specs.Prelude.{◌≡◌, ◌≤◌, ◌<◌, ◌^◌, []};
ghost use Rattle.shape_terms.specs.Limits.{most_points};
ghost use Rattle.measure_terms.specs.ThicknessColumns.{diameter, sum_of, IsMeanDiameter, mean_diameter, IsDeviation, deviation, greatest_diameter};
ghost use Rattle.measuring.specs.OneMore.{sum_with};

use std::marker::Model;

/// How thick an object is: how many points it has, the sum of the diameters at them, the sum of the squares of these, and the
/// greatest squared radius.
#[derive(Drop)]
pub struct ThicknessSum {
    count: u32,
    diameters: u64,
    squares: u128,
    greatest: u32,
}

impl Model for ThicknessSum {
    ghost use Rattle.measure_terms.specs.ThicknessColumns.{ThicknessSum};
    ghost use Rattle.measuring.specs.ThicknessFitting.{Fitting};

    ghost Value = { ThicknessSum };

    ghost view = { λ s. record {
      count = s.count;
      diameters = s.diameters;
      squares = s.squares;
      greatest = s.greatest;
    } };

    ghost invariant = { λ s. Fitting s.count s.diameters s.squares };
}

/// The diameter of a ball of which the squared radius is given, in thousandths, rounded to nearest.
pub fn diameter(square: u32) -> u32
    ensures value { result ≡ diameter square }
    ensures few { result ≤ 2 ^ 27 }
{
    let whole = (16_000_000 * u64::from(square)).isqrt();
    ((whole + 1) / 2) as u32
}

impl ThicknessSum {
    /// That of no point.
    pub fn none() -> ThicknessSum
        ensures { result ≡ sum_of [] }
    {
        ThicknessSum {
            count: 0,
            diameters: 0,
            squares: 0,
            greatest: 0,
        }
    }

    // Adds a point.
    pub(crate) fn add(&mut self, square: u32)
        requires { self.old.count < most_points }
        ensures { self.new ≡ sum_with self.old square }
    {
        let diameter = diameter(square);
        self.count += 1;
        self.diameters += u64::from(diameter);
        self.squares += u128::from(diameter) * u128::from(diameter);
        self.greatest = self.greatest.max(square);
    }

    /// The mean of the diameters, in thousandths, rounded to nearest and a half up, and 0 where there is no point.
    pub fn mean(&self) -> u64
        ensures value { result ≡ mean_diameter self.now }
        ensures nearest { 0 < self.now.count → IsMeanDiameter self.now result }
    {
        if self.count == 0 {
            return 0;
        }
        let count = u64::from(self.count);
        (2 * self.diameters + count) / (2 * count)
    }

    /// The standard deviation of the diameters, in thousandths, rounded to nearest and a half up, and 0 where there is no point.
    pub fn deviation(&self) -> u128
        ensures value { result ≡ deviation self.now }
        ensures nearest { 0 < self.now.count → IsDeviation self.now result }
    {
        if self.count == 0 {
            return 0;
        }
        let count = u128::from(self.count);
        let sum = u128::from(self.diameters);
        let spread = (count * self.squares).saturating_sub(sum * sum);
        let whole = (4 * spread / (count * count)).isqrt();
        (whole + 1) / 2
    }

    /// The greatest diameter, in thousandths, rounded to nearest.
    pub fn greatest(&self) -> u32
        ensures { result ≡ greatest_diameter self.now }
    {
        diameter(self.greatest)
    }
}
