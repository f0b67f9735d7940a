//! The first line of a report, which gives the sides of the picture.
//! The heading of a volume is known from any other text, whatever its sides are.
ghost use Rattle.std.specs.Prelude.{◌≡◌, ◌↔◌, ◌∷◌, [], IsSome, IfSome, true};
ghost use Rattle.shape_terms.specs.Points.{sides_of};
ghost use Rattle.shape_desk.specs.Desk.{OnlyReadsAt};
ghost use Rattle.shape_desk.specs.Line.{ahead_of};
ghost use Rattle.shape_desk.specs.declared.desk.Place.TheVariants.{Report};
ghost use Rattle.shape_report.specs.LineOf.{line_of};
ghost use Rattle.report_lines.specs.Reports.{IsHeading, space};
ghost use Rattle.report_lines.specs.Said.{given_sides};
ghost use Rattle.report_lines.specs.Headings.{HeadingOf, SolidHeading};
ghost use Rattle.report_lines.specs.Answers.{OpeningOf, OpeningAnswer};

use crate::fault::ReportFault;
use crate::opening::{Heading, Opening};
use shape_desk::{Desk, LineFault, LineReader};
use shape_report::{Line, read_claim};
use shape_space::{P2, P3, Point, Sides};

// The sides that a heading gives.
fn sides_in<P: Point>(line: &Line<P>) -> Option<Sides<P>>
    ensures exactly { IsSome result ↔ IsHeading P.MAX_SIDE (line_of P.coords line.now) }
    ensures given { IfSome result (λ s. given_sides (line_of P.coords line.now ∷ [])
        ≡ sides_of (P.coords s.lengths)) }
{
    match line {
        Line::Shape { sides, .. } => Sides::try_new(*sides),
        _ => None,
    }
}

// The heading that a line is.
fn with_sides<P: Point>(line: Line<P>) -> Option<Heading<P>>
    ensures exactly { IsSome result ↔ IsHeading P.MAX_SIDE (line_of P.coords line) }
    ensures line { IfSome result (λ h. h.line ≡ line) }
{
    let sides = sides_in(&line)?;
    Some(Heading { line, sides })
}

// The heading that the bytes of a line are.
fn heading_of<P: Point>(bytes: &[u8]) -> Option<Heading<P>>
    ensures { HeadingOf (space P.DIM P.MAX_SIDE) (λ h. line_of P.coords h.line) bytes.now result }
{
    let line = read_claim::<P>(bytes)?;
    with_sides(line)
}

// Whether a line is the heading of a volume.
fn is_of_volume(bytes: &[u8]) -> bool
    ensures { SolidHeading bytes.now result }
{
    match read_claim::<P3>(bytes) {
        Some(Line::Shape { .. }) => true,
        _ => false,
    }
}

// What the first line tells.
fn opening_of(bytes: &[u8]) -> Result<Opening, ReportFault>
    ensures { OpeningOf bytes.now result }
{
    if let Some(heading) = heading_of::<P2>(bytes) {
        return Ok(Opening::Flat(heading));
    }
    if let Some(heading) = heading_of::<P3>(bytes) {
        return Ok(Opening::Solid(heading));
    }
    if is_of_volume(bytes) {
        return Ok(Opening::NoBox);
    }
    Err(ReportFault::NotReport { line: 1 })
}

/// Takes the heading of the report that was begun at `Place::Report`, through a reader that has taken nothing.
///
/// `ReadFault` comes only where `read_faults` rose in this call, and `NoMemory` never.
pub fn read_opening<D: Desk>(reader: &mut LineReader, desk: &mut D) -> Result<Opening, ReportFault>
    requires { (D.state desk.old).begun Report ≡ true }
    ensures answer { OpeningAnswer
        (ahead_of reader.old.ahead ((D.state desk.old).left Report))
        (ahead_of reader.new.ahead ((D.state desk.new).left Report))
        (D.state desk.old).read_faults (D.state desk.new).read_faults result }
    ensures reads { OnlyReadsAt Report (D.state desk.old) (D.state desk.new) }
{
    match reader.next_line(desk) {
        Ok(Some(_)) => opening_of(reader.line()),
        Ok(None) => Err(ReportFault::NotReport { line: 1 }),
        Err(LineFault::Read) => Err(ReportFault::ReadFault),
        Err(LineFault::TooLong) => Err(ReportFault::NotReport { line: 1 }),
        Err(LineFault::NoLf) => Err(ReportFault::NotReport { line: 1 }),
    }
}
