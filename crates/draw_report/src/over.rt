//! A further report drawn over the object of an analysis, and written.
//! What is drawn is known to `overlay`.
ghost use Rattle.std.specs.Prelude.{◌≡◌};
ghost use Rattle.shape_desk.specs.Files.{KeepsFiles};
ghost use Rattle.report_lines.specs.Outcomes as Making;
ghost use Rattle.draw_report.specs.Overs.{refusal_of, RanOver};

use crate::fault::OverFault;
use crate::overlay::overlaid;
use report_lines::{Outcome, ReportFault};
use shape_desk::{Desk, put_all};
use std::alloc::Global;

// The outcome where the analysis is not read.
fn without_analysis(fault: ReportFault) -> Outcome
    ensures { result ≡ Making.refusal_of fault }
{
    match fault {
        ReportFault::NotReport { line } => Outcome::NotReport { line },
        ReportFault::ReadFault => Outcome::ReadFault,
        ReportFault::NoMemory => Outcome::NoMemory,
    }
}

// The outcome where nothing is drawn.
fn refused(fault: OverFault) -> Outcome
    ensures { result ≡ refusal_of fault }
{
    match fault {
        OverFault::Analysis(why) => without_analysis(why),
        OverFault::NotOver { line } => Outcome::NotOver { line },
        OverFault::ReadFault => Outcome::ReadFault,
        OverFault::NoMemory => Outcome::NoMemory,
    }
}

/// Draws the further report in a file over the object of the analysis in another, and writes the drawing.
pub(crate) fn run_over<D: Desk>(
    alloc: Global,
    analysis: &[u8],
    further: &[u8],
    desk: &mut D,
) -> Outcome
    ensures ran { RanOver analysis.now further.now (D.state desk.old) (D.state desk.new) result }
    ensures kept { KeepsFiles (D.state desk.old) (D.state desk.new) }
{
    let svg = match overlaid(alloc, analysis, further, desk) {
        Ok(svg) => svg,
        Err(fault) => return refused(fault),
    };
    match put_all(svg.as_slice(), desk) {
        Ok(()) => Outcome::Done,
        Err(_) => Outcome::WriteFault,
    }
}
