//! The cells of ratios that have no unit: solidity and circularity.
//! Another ratio is one more name, and one more piece of `put_ratios`, in the same places as in `specs/RatioColumns.antt`.
ghost use Rattle.std.specs.Prelude.{◌≡◌, ◌≤◌, ◌^◌, ◌++◌, OnOk};
ghost use Rattle.measure_report.specs.RatioColumns.{solidity, circularity, ratio_cells, ratio_names};
ghost use Rattle.measure_report.specs.FurtherTold.{sizes_told};

use measuring::Csv;
use shape_space::NoMemory;

// 4 pi rounded to twelve places, in units of the last one.
const FOUR_PI: u128 = 12_566_370_614_359;

// A border of so many thousandths or more is too long for an object of the plane to be round by a thousandth.
const LONG: u128 = 1 << 40;

/// What the ratios of an object go by.
#[derive(Clone, Copy, Debug, PartialEq, Eq)]
pub(crate) struct Sizes {
    /// How many pixels it has.
    pub(crate) area: u32,
    /// Twice the area of its convex hull.
    pub(crate) double_area: u64,
    /// The length of its outer border in thousandths.
    pub(crate) border: u128,
}

// The area over that of the convex hull, in thousandths, rounded to nearest and a half up.
fn solidity(s: &Sizes) -> u128
    ensures { result ≡ solidity (sizes_told s.now) }
{
    let whole = s.double_area as u128;
    if whole == 0 {
        return 0;
    }
    (4000 * s.area as u128 + whole) / (2 * whole)
}

// 4 pi times the area over the square of the border's length, in thousandths, rounded to nearest and a half up.
fn circularity(s: &Sizes) -> u128
    ensures { result ≡ circularity (sizes_told s.now) }
{
    if s.border == 0 || s.border >= LONG {
        return 0;
    }
    let square = s.border * s.border;
    (2 * (FOUR_PI * s.area as u128) + 1000 * square) / (2000 * square)
}

/// Puts the names of the columns.
pub(crate) fn put_ratio_names(csv: &mut Csv) -> Result<(), NoMemory>
    ensures { OnOk result (csv.new ≡ csv.old ++ ratio_names) }
{
    csv.put(b",solidity,circularity")
}

/// Puts the cells of an object's ratios; that of circularity is empty where no length of a border is told.
pub(crate) fn put_ratios(told: bool, s: &Sizes, csv: &mut Csv) -> Result<(), NoMemory>
    ensures { OnOk result (csv.new ≡ csv.old ++ ratio_cells told (sizes_told s.now)) }
{
    csv.thousandths(solidity(s))?;
    if told {
        csv.thousandths(circularity(s))
    } else {
        csv.put(b",")
    }
}
