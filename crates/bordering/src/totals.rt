//! Sums of lengths.
//! The sizes for which nothing overflows stand here.
ghost use Rattle.std.specs.Prelude.{◌≡◌, ◌+◌, ◌≤◌, ◌^◌};
ghost use Rattle.measure_terms.specs.Objects.{thousandths};
ghost use Rattle.bordering.specs.Told.{total_told};

use crate::total::Total;

// The side of a pixel in units.
const PIXEL: u128 = 1_000_000_000_000;

// A thousandth of a pixel in units.
const THOUSANDTH: u128 = 1_000_000_000;

impl Total {
    /// No length.
    pub fn none() -> Total
        ensures { total_told result ≡ 0 }
    {
        Total {
            pixels: 0,
            units: 0,
        }
    }

    // One length more.
    pub(crate) fn with(self, length: u128) -> Total
        requires short { length ≤ 2 ^ 100 }
        requires room { total_told self + length ≤ 2 ^ 157 + 2 ^ 101 }
        ensures { total_told result ≡ total_told self + length }
    {
        let units = self.units as u128 + length;
        Total {
            pixels: self.pixels + units / PIXEL,
            units: (units % PIXEL) as u64,
        }
    }
}

/// A sum of lengths in thousandths of a pixel, rounded to nearest, and a half up.
pub fn thousandths(total: Total) -> u128
    ensures { result ≡ thousandths (total_told total) }
{
    total.pixels * 1000 + (total.units as u128 + THOUSANDTH / 2) / THOUSANDTH
}
