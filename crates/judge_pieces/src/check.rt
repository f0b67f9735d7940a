//! Checking a report of the fewest straight pieces of the contours of a flat picture.
//! How a report is gone through line by line is known to `report_text`.
ghost use Rattle.std.specs.Prelude.{◌≡◌, true};
ghost use Rattle.shape_desk.specs.Desk.{OnlyReadsAt};
ghost use Rattle.shape_desk.specs.declared.desk.Place.TheVariants.{Report};
ghost use Rattle.piece_terms.specs.PieceReports.{piece_report};
ghost use Rattle.report_text.specs.Checks.{HasChecked};

use crate::judge::PieceJudge;
use report_text::{CheckFault, Judgement, check_by};
use shape_desk::Desk;
use shape_grid::Grid;
use shape_space::P2;
use std::alloc::Global;

/// Checks the report of the fewest straight pieces of a flat picture: whether the file that was begun at `Place::Report` holds
/// of it.
///
/// The file is read line by line and never whole: the bytes of its good lines are taken, and at most 2048 more. It takes a fixed
/// number of operations for each point of a contour and each byte of a good line. `Yes` exactly where the report holds, and `No`
/// exactly where its line is the first bad one, where the desk tells the file.
///
/// # Errors
///
/// `ReadFault` only where `read_faults` rose in this call; `NoMemory` where there is none for the contours of the picture.
pub fn check_pieces<D: Desk>(
    alloc: Global,
    grid: &Grid<P2>,
    desk: &mut D,
) -> Result<Judgement, CheckFault>
    requires { (D.state desk.old).begun Report ≡ true }
    ensures checked { HasChecked (piece_report grid.now) ((D.state desk.old).left Report)
        (D.state desk.old) (D.state desk.new) result }
    ensures reads { OnlyReadsAt Report (D.state desk.old) (D.state desk.new) }
{
    let mut judge = PieceJudge::new(alloc, grid)?;
    check_by(alloc, &mut judge, desk)
}
