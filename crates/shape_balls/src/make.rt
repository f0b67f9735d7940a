//! The ball report of a picture: the balls are found, and then spelled.
ghost use Rattle.std.specs.Prelude.{IfOk};
ghost use Rattle.text_terms.specs.Reports.{Holds};
ghost use Rattle.ball_terms.specs.Balls.{AreUnion};
ghost use Rattle.ball_terms.specs.Reports.{ball_report};
ghost use Rattle.ball_terms.specs.Shows.{ListsBalls};

use crate::list::union_of;
use crate::report::BallReport;
use crate::spell::spell;
use shape_grid::Grid;
use shape_space::{NoMemory, Point};
use std::alloc::Global;

/// The ball report of a picture or volume: its object as a union of balls, none of them needless. The fewest balls are not
/// promised.
///
/// Its time is linear in the number of points of the framed box but for a sort of the object points, and it takes some
/// words of memory for each point.
pub fn balls<P: Point>(alloc: Global, grid: &Grid<P>) -> Result<BallReport<P>, NoMemory>
    ensures report { IfOk result (λ r. Holds (ball_report grid.now) r.text) }
    ensures lists { IfOk result (λ r. ListsBalls grid.now.sides r.text r.balls) }
    ensures union { IfOk result (λ r. AreUnion grid.now r.balls) }
{
    grid.is_picture();
    let list = union_of(alloc, grid)?;
    let report = spell(alloc, grid.sides().lengths, &list)?;
    Ok(BallReport { list, report })
}
