//! Further columns of a table, which stand behind those of the measures.
//! What they tell is known to the caller.
ghost use Rattle.std.specs.Prelude.{◌≡◌, ◌++◌, OnOk};
ghost use Rattle.measure_terms.specs.Texts as Texts;

use crate::csv::Csv;
use shape_space::NoMemory;

/// Further columns of a table.
pub trait Columns {
    /// Their names, and their cells in each row.
    ghost columns: { Self → Texts.Columns };

    /// Puts their names, each behind a comma.
    fn put_names(&self, csv: &mut Csv) -> Result<(), NoMemory>
        ensures { OnOk result (csv.new ≡ csv.old ++ (columns self.now).names) };

    /// Puts their cells in the row with a place, from 0 on.
    fn put_cells(&self, i: usize, csv: &mut Csv) -> Result<(), NoMemory>
        ensures { OnOk result (csv.new ≡ csv.old ++ (columns self.now).cells i) };
}

/// No further column.
#[derive(Clone, Copy, Debug, PartialEq, Eq)]
pub struct NoColumns;

impl Columns for NoColumns {
    ghost use Rattle.measure_terms.specs.Texts.{no_columns};

    ghost columns = { λ _. no_columns };

    fn put_names(&self, _csv: &mut Csv) -> Result<(), NoMemory> {
        Ok(())
    }

    fn put_cells(&self, _i: usize, _csv: &mut Csv) -> Result<(), NoMemory> {
        Ok(())
    }
}
