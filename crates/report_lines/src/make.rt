//! Making bytes of a report: its heading, each of its lines in turn, and what is kept of them at the end.
//! Nothing is made before the whole report was read.
ghost use Rattle.std.specs.Prelude.{◌≡◌, [], ◌∷◌, ℕ, List, Option, IfOk, true};
ghost use Rattle.shape_desk.specs.Desk.{OnlyReadsAt};
ghost use Rattle.shape_desk.specs.Line.{ahead_of, IfTold};
ghost use Rattle.shape_desk.specs.declared.desk.Place.TheVariants.{Report};
ghost use Rattle.report_terms.specs.Lines.{Line};
ghost use Rattle.report_lines.specs.Reports.{space, flat, solid};
ghost use Rattle.report_lines.specs.Headings.{TakesHeading};
ghost use Rattle.report_lines.specs.Seen.{flat_line, solid_line};
ghost use Rattle.report_lines.specs.Answers.{Reads};
ghost use Rattle.report_lines.specs.Made.{Makes, about};

use crate::fault::ReportFault;
use crate::heading::read_opening;
use crate::making::Making;
use crate::opening::{Heading, Opening};
use crate::read::read_lines;
use crate::sketch::Sketch;
use shape_desk::{Desk, LineReader};
use shape_space::{NoMemory, P2, P3, Point};
use std::alloc::Global;

/// The bytes that are made of a report, and the number of axes of its picture.
#[derive(Drop)]
pub struct Made {
    pub(crate) bytes: Vec<u8>,
    pub(crate) axes: u32,
}

// What is kept of a report's lines, where its heading was taken and kept.
fn read_kept<P: Point, S: Sketch<P>, D: Desk>(
    begun: Result<S, NoMemory>,
    reader: &mut LineReader,
    desk: &mut D,
) -> Result<S, ReportFault>
    requires { (D.state desk.old).begun Report ≡ true }
    ensures answer { (text : Option (List ℕ)) (heading : Line) → IfTold text (λ bytes.
        TakesHeading (space P.DIM P.MAX_SIDE) bytes
        (ahead_of reader.old.ahead ((D.state desk.old).left Report)) heading)
        → IfOk begun (S.IsOf (heading ∷ []))
        → Reads (space P.DIM P.MAX_SIDE) S.IsOf text
        (D.state desk.old).read_faults (D.state desk.new).read_faults result }
    ensures reads { OnlyReadsAt Report (D.state desk.old) (D.state desk.new) }
{
    match begun {
        Ok(kept) => read_lines::<P, S, D>(kept, reader, desk),
        Err(_) => Err(ReportFault::NoMemory),
    }
}

// Makes the bytes of a flat picture's report, whose heading was taken.
fn make_flat<M: Making, D: Desk>(
    alloc: Global,
    making: &M,
    heading: &Heading<P2>,
    reader: &mut LineReader,
    desk: &mut D,
) -> Result<Made, ReportFault>
    requires { (D.state desk.old).begun Report ≡ true }
    ensures answer { (text : Option (List ℕ)) → IfTold text (λ bytes. TakesHeading flat bytes
        (ahead_of reader.old.ahead ((D.state desk.old).left Report))
        (flat_line heading.now.line))
        → Makes (λ v. about v.axes (M.makes making.now)) (λ v. v.bytes.items) text
        (D.state desk.old).read_faults (D.state desk.new).read_faults result }
    ensures reads { OnlyReadsAt Report (D.state desk.old) (D.state desk.new) }
{
    let begun = making.begin_flat(alloc, heading);
    let kept = read_kept::<P2, M::Flat, D>(begun, reader, desk)?;
    match making.make_flat(alloc, kept) {
        Ok(bytes) => Ok(Made { bytes, axes: 2 }),
        Err(_) => Err(ReportFault::NoMemory),
    }
}

// Makes the bytes of a volume's report, whose heading was taken.
fn make_solid<M: Making, D: Desk>(
    alloc: Global,
    making: &M,
    heading: &Heading<P3>,
    reader: &mut LineReader,
    desk: &mut D,
) -> Result<Made, ReportFault>
    requires { (D.state desk.old).begun Report ≡ true }
    ensures answer { (text : Option (List ℕ)) → IfTold text (λ bytes. TakesHeading solid bytes
        (ahead_of reader.old.ahead ((D.state desk.old).left Report))
        (solid_line heading.now.line))
        → Makes (λ v. about v.axes (M.makes making.now)) (λ v. v.bytes.items) text
        (D.state desk.old).read_faults (D.state desk.new).read_faults result }
    ensures reads { OnlyReadsAt Report (D.state desk.old) (D.state desk.new) }
{
    let begun = making.begin_solid(alloc, heading);
    let kept = read_kept::<P3, M::Solid, D>(begun, reader, desk)?;
    match making.make_solid(alloc, kept) {
        Ok(bytes) => Ok(Made { bytes, axes: 3 }),
        Err(_) => Err(ReportFault::NoMemory),
    }
}

/// Makes the bytes of the report that was begun at `Place::Report`.
///
/// `ReadFault` comes only where `read_faults` rose in this call.
pub(crate) fn make<M: Making, D: Desk>(
    alloc: Global,
    making: &M,
    desk: &mut D,
) -> Result<Made, ReportFault>
    requires { (D.state desk.old).begun Report ≡ true }
    ensures answer { Makes (λ v. about v.axes (M.makes making.now)) (λ v. v.bytes.items)
        ((D.state desk.old).left Report)
        (D.state desk.old).read_faults (D.state desk.new).read_faults result }
    ensures reads { OnlyReadsAt Report (D.state desk.old) (D.state desk.new) }
{
    let Ok(mut reader) = LineReader::new(alloc) else {
        return Err(ReportFault::NoMemory);
    };
    match read_opening(&mut reader, desk)? {
        Opening::Flat(heading) => make_flat(alloc, making, &heading, &mut reader, desk),
        Opening::Solid(heading) => make_solid(alloc, making, &heading, &mut reader, desk),
        Opening::NoBox => Err(ReportFault::NotReport { line: 1 }),
    }
}
