//! The rows of an object, as its points come in raster order.
//! Which object a point belongs to is told in `rows_of_objects`.
ghost use Rattle.std.specs.Prelude.{◌≡◌, [], ◌⊎◌, OnOk};
ghost use Rattle.measuring.specs.Seen.{IsWidened, IsBegun};

use crate::object_row::Row;
use crate::spot::Spot;
use shape_space::NoMemory;
use std::alloc::Global;

/// The rows of an object.
#[derive(Drop)]
pub(crate) struct Outline {
    /// From the first one down.
    pub(crate) rows: Vec<Row>,
}

impl Outline {
    /// No row.
    pub(crate) fn new(alloc: Global) -> Outline
        ensures { result.rows.items ≡ [] }
    {
        Outline {
            rows: Vec::new(alloc),
        }
    }

    /// Puts the spot that comes next in raster order.
    pub(crate) fn put(&mut self, p: Spot) -> Result<(), NoMemory>
        ensures { OnOk result (IsWidened p self.old.rows.items self.new.rows.items
            ⊎ IsBegun p self.old.rows.items self.new.rows.items) }
    {
        let count = self.rows.len();
        if count > 0 && self.rows[count - 1].y == p.y {
            self.rows[count - 1].right = p.x;
            return Ok(());
        }
        self.rows.push(Row {
            y: p.y,
            left: p.x,
            right: p.x,
        })?;
        Ok(())
    }
}
