//! The rows that keep both slopes of a proper line or plane between -1 and 1.
//! The rows of pairs belong elsewhere.
ghost use Rattle.std.specs.Prelude.{◌≡◌, ◌<◌, ◌++◌, [], ◌∷◌, length, map, IfOk};
ghost use Rattle.shape_plane.specs.Rows.{IsSystem};
ghost use Rattle.shape_plane.specs.Pairs.{ArePairs, AreInside};
ghost use Rattle.shape_plane.specs.Systems.{proper_row as proper, bounding_rows as bounding, rows_for};

use crate::pair::{first_axis, second_axis};
use crate::row::{Cause, Row};
use shape_refute::Step;
use shape_space::NoMemory;
use std::alloc::Global;

// What a step says of the slopes.
fn proper_row(x: i64, y: i64, step: Step) -> Row
    ensures { result ≡ proper x y step }
{
    Row {
        x,
        y,
        z: -1,
        cause: Cause::Proper(step),
    }
}

// So many rows have room from the first on.
const USUAL: usize = 16;

/// The rows that keep both slopes between -1 and 1.
pub fn bounding_rows(alloc: Global, axis: usize) -> Result<Vec<Row>, NoMemory>
    ensures { IfOk result (λ v. v.items ≡ bounding axis) }
{
    let first = first_axis(axis) as u8;
    let second = second_axis(axis) as u8;
    let mut rows = Vec::with_capacity(alloc, USUAL)?;
    rows.push(proper_row(-1, 0, Step::Plus(first)))?;
    rows.push(proper_row(1, 0, Step::Minus(first)))?;
    rows.push(proper_row(0, -1, Step::Plus(second)))?;
    rows.push(proper_row(0, 1, Step::Minus(second)))?;
    Ok(rows)
}
