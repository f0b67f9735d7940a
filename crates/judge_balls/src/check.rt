//! Checking a ball report.
//! Which line is good next is known to the judge, and how a text is gone through to `report_text`.
ghost use Rattle.std.specs.Prelude.{◌≡◌, true};
ghost use Rattle.shape_desk.specs.Desk.{OnlyReadsAt};
ghost use Rattle.shape_desk.specs.declared.desk.Place.TheVariants.{Report};
ghost use Rattle.report_text.specs.Checks.{HasChecked};
ghost use Rattle.ball_terms.specs.Reports.{ball_report};

use crate::course::BallReportJudge;
use report_text::{CheckFault, Judgement, check_by};
use shape_desk::Desk;
use shape_grid::Grid;
use shape_space::Point;
use std::alloc::Global;

/// Checks the ball report of a picture or volume: whether the file that was begun at `Place::Report` holds of it.
///
/// The file is read line by line and never whole: the bytes of its good lines are taken, and at most
/// 2048 more. `Yes` exactly where the report holds, and `No` exactly where its line is the first bad
/// one, where the desk tells the file. `ReadFault` comes only where `read_faults` rose in this call.
/// No list of balls is kept: beside the least distances of the picture, two marks for each point.
pub fn check_balls<P: Point, D: Desk>(
    alloc: Global,
    grid: &Grid<P>,
    desk: &mut D,
) -> Result<Judgement, CheckFault>
    requires { (D.state desk.old).begun Report ≡ true }
    ensures checked { HasChecked (ball_report grid.now) ((D.state desk.old).left Report)
        (D.state desk.old) (D.state desk.new) result }
    ensures reads { OnlyReadsAt Report (D.state desk.old) (D.state desk.new) }
{
    grid.is_picture();
    let mut judge = BallReportJudge::new(alloc, grid)?;
    check_by(alloc, &mut judge, desk)
}
