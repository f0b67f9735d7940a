//! Reading the analysis of a flat picture: its heading, and then each of its lines in turn.
//! What is kept of them is told in `analysis`.
ghost use Rattle.std.specs.Prelude.{◌≡◌, ℕ, List, Option, true};
ghost use Rattle.shape_desk.specs.Desk.{OnlyReads, OnlyReadsAt};
ghost use Rattle.shape_desk.specs.Line.{ahead_of, IfTold};
ghost use Rattle.shape_desk.specs.declared.desk.Place.TheVariants.{Report};
ghost use Rattle.report_lines.specs.Reports.{flat};
ghost use Rattle.report_lines.specs.Headings.{TakesHeading};
ghost use Rattle.report_lines.specs.Seen.{flat_line};
ghost use Rattle.draw_report.specs.Answers.{AnalysisRead, AnalysisInFile};

use crate::analysis::Analysis;
use report_lines::{Heading, Opening, ReportFault, read_lines, read_opening};
use shape_desk::{Desk, LineReader, Place};
use shape_space::P2;
use std::alloc::Global;

// Reads the lines of an analysis behind its heading.
fn read_behind<D: Desk>(
    heading: &Heading<P2>,
    alloc: Global,
    reader: &mut LineReader,
    desk: &mut D,
) -> Result<Analysis, ReportFault>
    requires { (D.state desk.old).begun Report ≡ true }
    ensures answer { (text : Option (List ℕ)) → IfTold text (λ bytes. TakesHeading flat bytes
        (ahead_of reader.old.ahead ((D.state desk.old).left Report)) (flat_line heading.now.line))
        → AnalysisRead text (D.state desk.old).read_faults (D.state desk.new).read_faults result }
    ensures reads { OnlyReadsAt Report (D.state desk.old) (D.state desk.new) }
{
    let Ok(begun) = Analysis::new(alloc, heading) else {
        return Err(ReportFault::NoMemory);
    };
    read_lines::<P2, Analysis, D>(begun, reader, desk)
}

// Reads the analysis that was begun at `Place::Report`.
fn read_begun<D: Desk>(alloc: Global, desk: &mut D) -> Result<Analysis, ReportFault>
    requires { (D.state desk.old).begun Report ≡ true }
    ensures answer { AnalysisRead ((D.state desk.old).left Report)
        (D.state desk.old).read_faults (D.state desk.new).read_faults result }
    ensures reads { OnlyReadsAt Report (D.state desk.old) (D.state desk.new) }
{
    let Ok(mut reader) = LineReader::new(alloc) else {
        return Err(ReportFault::NoMemory);
    };
    match read_opening(&mut reader, desk)? {
        Opening::Flat(heading) => read_behind(&heading, alloc, &mut reader, desk),
        Opening::Solid(_) => Err(ReportFault::NotReport { line: 1 }),
        Opening::NoBox => Err(ReportFault::NotReport { line: 1 }),
    }
}

/// Reads the analysis in a file.
pub(crate) fn read_analysis<D: Desk>(
    alloc: Global,
    name: &[u8],
    desk: &mut D,
) -> Result<Analysis, ReportFault>
    ensures answer { AnalysisInFile name.now (D.state desk.old) (D.state desk.new) result }
    ensures only { OnlyReads (D.state desk.old) (D.state desk.new) }
{
    match desk.begin(Place::Report, name) {
        Ok(()) => read_begun(alloc, desk),
        Err(_) => Err(ReportFault::ReadFault),
    }
}
