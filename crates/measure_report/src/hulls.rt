//! The columns of convex hulls: area, perimeter, least width, and the side across which an object is so wide.
//! A further column is one more piece in both methods, in the same place as in `specs/HullColumns.antt`.
ghost use Rattle.std.specs.Prelude.{◌≡◌, ◌++◌, OnOk, slice_index_or};
ghost use Rattle.measure_terms.specs.HullSizes.{convex_area};
ghost use Rattle.measuring.specs.Sizes.{hull_told, hulls_told};
ghost use Rattle.measure_report.specs.HullColumns.{convex_perimeter, hull_cells, no_hull};

use measuring::{Columns, Csv, HullSize};
use shape_space::NoMemory;

/// The columns of the hull of each object.
#[derive(Drop)]
pub(crate) struct HullColumns {
    pub(crate) hulls: Vec<HullSize>,
}

/// The hull of the object in a row with a place, and zeros where there is no such object.
pub(crate) fn hull_at(all: &[HullSize], i: usize) -> HullSize
    ensures { hull_told result ≡ slice_index_or (hulls_told all.now) i no_hull }
{
    if i < all.len() {
        all[i]
    } else {
        HullSize {
            double_area: 0,
            perimeter: 0,
            across: 0,
            length: 0,
            min_feret: 0,
            dx: 0,
            dy: 0,
        }
    }
}

// The area in thousandths.
fn area(z: &HullSize) -> u128
    ensures { result ≡ convex_area (hull_told z.now) }
{
    500 * z.double_area as u128
}

// The length of the border in thousandths.
fn perimeter(z: &HullSize) -> u128
    ensures { result ≡ convex_perimeter (hull_told z.now) }
{
    (z.perimeter as u128 + 500) / 1000
}

// Puts the cells of an object.
fn put_hull(z: &HullSize, csv: &mut Csv) -> Result<(), NoMemory>
    ensures { OnOk result (csv.new ≡ csv.old ++ hull_cells (hull_told z.now)) }
{
    csv.thousandths(area(z))?;
    csv.thousandths(perimeter(z))?;
    csv.thousandths(z.min_feret as u128)?;
    csv.signed(z.dx as i128)?;
    csv.signed(z.dy as i128)?;
    Ok(())
}

impl Columns for HullColumns {
    ghost use Rattle.measuring.specs.Sizes.{hulls_told};
    ghost use Rattle.measure_report.specs.HullColumns.{hull_columns};

    ghost columns = { λ c. hull_columns (hulls_told c.hulls.items) };

    fn put_names(&self, csv: &mut Csv) -> Result<(), NoMemory> {
        csv.put(b",convex_area,convex_perimeter,min_feret,side_x,side_y")
    }

    fn put_cells(&self, i: usize, csv: &mut Csv) -> Result<(), NoMemory> {
        put_hull(&hull_at(self.hulls.as_slice(), i), csv)
    }
}
