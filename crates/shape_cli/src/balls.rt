//! Ball reports of pictures and of volumes: one call for either.
//! What is promised of a report of either is the same.
ghost use Rattle.std.specs.Prelude.{◌≡◌, IfOk, true};
ghost use Rattle.text_terms.specs.Reports.{Holds};
ghost use Rattle.ball_terms.specs.Reports.{ball_report};
ghost use Rattle.shape_desk.specs.Desk.{OnlyReadsAt};
ghost use Rattle.shape_desk.specs.declared.desk.Place.TheVariants.{Report as ReportPlace};
ghost use Rattle.report_text.specs.Checks.{HasChecked};
ghost use Rattle.shape_cli.specs.Parts.{picture_of};

use crate::picture::Image;
use judge_balls::check_balls;
use report_text::{CheckFault, Judgement, Report};
use shape_balls::balls;
use shape_desk::Desk;
use shape_space::NoMemory;
use std::alloc::Global;

/// The ball report of a picture.
pub(crate) fn ball_report_of(alloc: Global, image: &Image) -> Result<Report, NoMemory>
    ensures { IfOk result (Holds (ball_report (picture_of image.now))) }
{
    match image {
        Image::Flat(grid) => Ok(balls(alloc, grid)?.into_report()),
        Image::Solid(grid) => Ok(balls(alloc, grid)?.into_report()),
    }
}

/// Checks the ball report that is begun against a picture.
pub(crate) fn check_ball_report<D: Desk>(
    alloc: Global,
    image: &Image,
    desk: &mut D,
) -> Result<Judgement, CheckFault>
    requires { (D.state desk.old).begun ReportPlace ≡ true }
    ensures checked { HasChecked (ball_report (picture_of image.now))
        ((D.state desk.old).left ReportPlace) (D.state desk.old) (D.state desk.new) result }
    ensures reads { OnlyReadsAt ReportPlace (D.state desk.old) (D.state desk.new) }
{
    match image {
        Image::Flat(grid) => check_balls(alloc, grid, desk),
        Image::Solid(grid) => check_balls(alloc, grid, desk),
    }
}
