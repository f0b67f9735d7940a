//! The columns of local thickness: the mean, the deviation and the greatest of the diameters at the points of an object.
//! A further column is one more piece in both methods, in the same place as in `specs/ThicknessColumns.antt`.
ghost use Rattle.std.specs.Prelude.{◌≡◌, ◌++◌, OnOk, slice_index_or};
ghost use Rattle.measure_report.specs.ThicknessColumns.{thickness_cells, thickness_columns, no_thickness};

use measuring::{Csv, ThicknessSum};
use shape_space::NoMemory;

/// The columns of the thickness of each object.
#[derive(Drop)]
pub(crate) struct ThicknessColumns {
    pub(crate) sums: Vec<ThicknessSum>,
}

// Puts the cells of an object.
fn put_thickness(sum: &ThicknessSum, csv: &mut Csv) -> Result<(), NoMemory>
    ensures { OnOk result (csv.new ≡ csv.old ++ thickness_cells sum.now) }
{
    csv.thousandths(sum.mean() as u128)?;
    csv.thousandths(sum.deviation())?;
    csv.thousandths(sum.greatest() as u128)?;
    Ok(())
}

// Puts the cells of the object in a row with a place, and those of no point where there is no such object.
fn put_sum_at(all: &[ThicknessSum], i: usize, csv: &mut Csv) -> Result<(), NoMemory>
    ensures { OnOk result (csv.new
        ≡ csv.old ++ thickness_cells (slice_index_or all.now i no_thickness)) }
{
    if i < all.len() {
        put_thickness(&all[i], csv)
    } else {
        put_thickness(&ThicknessSum::none(), csv)
    }
}

impl ThicknessColumns {
    // Puts the names.
    pub(crate) fn put_names(&self, told: bool, csv: &mut Csv) -> Result<(), NoMemory>
        ensures { OnOk result (csv.new
            ≡ csv.old ++ (thickness_columns told self.now.sums.items).names) }
    {
        csv.put(b",thickness,thickness_sd,thickness_max")
    }

    // Puts the cells in the row with a place: empty ones where no distance is told.
    pub(crate) fn put_cells(&self, told: bool, i: usize, csv: &mut Csv) -> Result<(), NoMemory>
        ensures { OnOk result (csv.new
            ≡ csv.old ++ (thickness_columns told self.now.sums.items).cells i) }
    {
        if told {
            put_sum_at(self.sums.as_slice(), i, csv)
        } else {
            csv.put(b",,,")
        }
    }
}
