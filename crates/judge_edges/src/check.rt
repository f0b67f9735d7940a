//! Checking an edge report.
//! Texts and lines are gone through by `report_text`; which line is good is known to the judge.
ghost use Rattle.std.specs.Prelude.{◌≡◌, true};
ghost use Rattle.shape_desk.specs.Desk.{OnlyReadsAt};
ghost use Rattle.shape_desk.specs.declared.desk.Place.TheVariants.{Report};
ghost use Rattle.report_text.specs.Checks.{HasChecked};
ghost use Rattle.edge_terms.specs.EdgeReports.{edge_report};

use crate::whole::WholeJudge;
use report_text::{CheckFault, Judgement, check_by};
use shape_desk::Desk;
use shape_grid::Grid;
use shape_space::P2;
use std::alloc::Global;

/// Checks the edge report of a flat picture that was begun at `Place::Report`.
///
/// The file is read line by line and never whole: the bytes of its good lines are taken, and at most 2048 more. `Yes` exactly where the
/// report holds of the picture, and `No` exactly where its line is the first bad one, where the desk tells the file. `ReadFault` comes only
/// where `read_faults` rose in this call. It takes memory by the number of cracks of the picture, before the first line is read.
pub fn check_edges<D: Desk>(
    alloc: Global,
    grid: &Grid<P2>,
    desk: &mut D,
) -> Result<Judgement, CheckFault>
    requires { (D.state desk.old).begun Report ≡ true }
    ensures checked { HasChecked (edge_report grid.now) ((D.state desk.old).left Report)
        (D.state desk.old) (D.state desk.new) result }
    ensures reads { OnlyReadsAt Report (D.state desk.old) (D.state desk.new) }
{
    let mut judge = WholeJudge::new(alloc, grid)?;
    check_by(alloc, &mut judge, desk)
}
