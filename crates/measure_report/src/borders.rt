//! The columns of borders: how many holes an object has, and how long its borders are, where the report tells it.
//! A further column is one more piece in both methods, in the same place as in `specs/BorderColumns.antt`.
ghost use Rattle.std.specs.Prelude.{◌≡◌, ◌++◌, OnOk, slice_index_or};
ghost use Rattle.bordering.specs.Told.{total_told, bounds_told, all_bounds};
ghost use Rattle.bordering.specs.OneMore.{no_bounds};
ghost use Rattle.measure_report.specs.BorderColumns.{length_cell, border_cells};

use bordering::{Bounds, Total, thousandths};
use measuring::{Columns, Csv};
use shape_space::NoMemory;

/// The columns of what the borders of each object add up to.
#[derive(Drop)]
pub(crate) struct BorderColumns {
    /// Whether lengths are told: the lines of the report are shown to be least.
    pub(crate) told: bool,
    pub(crate) bounds: Vec<Bounds>,
}

/// The borders of the object in a row with a place, and none where there is no such object.
pub(crate) fn bounds_at(all: &[Bounds], i: usize) -> Bounds
    ensures { bounds_told result ≡ slice_index_or (all_bounds all.now) i no_bounds }
{
    if i < all.len() {
        all[i]
    } else {
        Bounds::none()
    }
}

// Puts the cell of a length, which is empty where none is told.
fn put_length(told: bool, length: Total, csv: &mut Csv) -> Result<(), NoMemory>
    ensures { OnOk result (csv.new ≡ csv.old ++ length_cell told (total_told length)) }
{
    if told {
        csv.thousandths(thousandths(length))
    } else {
        csv.put(b",")
    }
}

// Puts the cells of an object's borders.
fn put_bounds(told: bool, b: Bounds, csv: &mut Csv) -> Result<(), NoMemory>
    ensures { OnOk result (csv.new ≡ csv.old ++ border_cells told (bounds_told b)) }
{
    csv.whole(b.holes as u128)?;
    put_length(told, b.border, csv)?;
    put_length(told, b.hole_border, csv)?;
    Ok(())
}

impl Columns for BorderColumns {
    ghost use Rattle.bordering.specs.Told.{all_bounds};
    ghost use Rattle.measure_report.specs.BorderColumns.{border_columns};

    ghost columns = { λ c. border_columns c.told (all_bounds c.bounds.items) };

    fn put_names(&self, csv: &mut Csv) -> Result<(), NoMemory> {
        csv.put(b",holes,border,hole_border")
    }

    fn put_cells(&self, i: usize, csv: &mut Csv) -> Result<(), NoMemory> {
        put_bounds(self.told, bounds_at(self.bounds.as_slice(), i), csv)
    }
}
