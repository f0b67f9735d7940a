//! Reading a further report: its heading, which tells the kind, and then the marks that its lines give.
//! Which lines come in order is known to `gatherer`.
ghost use Rattle.std.specs.Prelude.{◌≡◌, ◌<◌, List, Option, ℕ, true};
ghost use Rattle.shape_desk.specs.Desk.{OnlyReads, OnlyReadsAt};
ghost use Rattle.shape_desk.specs.Line.{ahead_of, IfTold};
ghost use Rattle.shape_desk.specs.declared.desk.Place.TheVariants.{Report};
ghost use Rattle.drawing.specs.Seen.{flat};
ghost use Rattle.draw_report.specs.Parts.{kind_by};
ghost use Rattle.draw_report.specs.Kinds.{lines_of};
ghost use Rattle.draw_report.specs.Headings.{TakesHeading};
ghost use Rattle.draw_report.specs.Seen.{all_marks};
ghost use Rattle.draw_report.specs.Answers.{GatheredAll, HeadingRead, FurtherRead, FurtherInFile};

use crate::fault::OverFault;
use crate::gatherer::Gatherer;
use crate::kind::{Kind, kind_of};
use crate::over_line::OverLine;
use crate::part::Mark;
use judge_balls::BallLine;
use judge_edges::EdgeLine;
use judge_pieces::PieceLine;
use report_text::{CheckFault, Judgement, check_from};
use shape_desk::{Desk, LineFault, LineReader, Place};
use shape_space::P2;
use std::alloc::Global;

/// What is kept of a further report.
#[derive(Drop)]
pub struct Further {
    pub(crate) kind: Kind,
    pub(crate) marks: Vec<Mark>,
}

// Gathers the marks of the lines behind a heading.
fn gather<L: OverLine, D: Desk>(
    alloc: Global,
    reader: &mut LineReader,
    desk: &mut D,
) -> Result<Vec<Mark>, OverFault>
    requires { (D.state desk.old).begun Report ≡ true }
    ensures answer { (sides : List _) (text : Option (List ℕ)) → IfTold text
        (TakesHeading (kind_by L.form L.last L.gives) sides
        (ahead_of reader.old.ahead ((D.state desk.old).left Report)))
        → GatheredAll (λ v. all_marks v.items) (kind_by L.form L.last L.gives) sides text
        (D.state desk.old).read_faults (D.state desk.new).read_faults result }
    ensures reads { OnlyReadsAt Report (D.state desk.old) (D.state desk.new) }
{
    let mut gatherer = Gatherer::new(alloc);
    match check_from::<L, Gatherer, D>(&mut gatherer, reader, desk, 2) {
        Ok(Judgement::Yes) => Ok(gatherer.into_marks()),
        Ok(Judgement::No { line }) => Err(OverFault::NotOver { line }),
        Err(CheckFault::ReadFault) => Err(OverFault::ReadFault),
        Err(CheckFault::NoMemory) => Err(OverFault::NoMemory),
    }
}

// Gathers the marks of the lines behind the heading of a kind.
fn gather_kind<D: Desk>(
    alloc: Global,
    kind: Kind,
    reader: &mut LineReader,
    desk: &mut D,
) -> Result<Vec<Mark>, OverFault>
    requires { (D.state desk.old).begun Report ≡ true }
    ensures answer { (sides : List _) (text : Option (List ℕ)) → IfTold text
        (TakesHeading (lines_of kind) sides
        (ahead_of reader.old.ahead ((D.state desk.old).left Report)))
        → GatheredAll (λ v. all_marks v.items) (lines_of kind) sides text
        (D.state desk.old).read_faults (D.state desk.new).read_faults result }
    ensures reads { OnlyReadsAt Report (D.state desk.old) (D.state desk.new) }
{
    match kind {
        Kind::Balls => gather::<BallLine<P2>, D>(alloc, reader, desk),
        Kind::Pieces => gather::<PieceLine, D>(alloc, reader, desk),
        Kind::Edges => gather::<EdgeLine, D>(alloc, reader, desk),
    }
}

// Takes the heading of a further report about a picture with these sides.
fn read_kind<D: Desk>(sides: P2, reader: &mut LineReader, desk: &mut D) -> Result<Kind, OverFault>
    requires { (D.state desk.old).begun Report ≡ true }
    ensures answer { HeadingRead (flat sides)
        (ahead_of reader.old.ahead ((D.state desk.old).left Report))
        (ahead_of reader.new.ahead ((D.state desk.new).left Report))
        (D.state desk.old).read_faults (D.state desk.new).read_faults result }
    ensures reads { OnlyReadsAt Report (D.state desk.old) (D.state desk.new) }
{
    match reader.next_line(desk) {
        Ok(Some(_)) => match kind_of(reader.line(), sides) {
            Some(kind) => Ok(kind),
            None => Err(OverFault::NotOver { line: 1 }),
        },
        Ok(None) => Err(OverFault::NotOver { line: 1 }),
        Err(LineFault::Read) => Err(OverFault::ReadFault),
        Err(LineFault::TooLong) => Err(OverFault::NotOver { line: 1 }),
        Err(LineFault::NoLf) => Err(OverFault::NotOver { line: 1 }),
    }
}

// Reads the further report that was begun at `Place::Report`.
fn read_begun<D: Desk>(alloc: Global, sides: P2, desk: &mut D) -> Result<Further, OverFault>
    requires { (D.state desk.old).begun Report ≡ true }
    ensures answer { FurtherRead (flat sides) ((D.state desk.old).left Report)
        (D.state desk.old).read_faults (D.state desk.new).read_faults result }
    ensures reads { OnlyReadsAt Report (D.state desk.old) (D.state desk.new) }
{
    let Ok(mut reader) = LineReader::new(alloc) else {
        return Err(OverFault::NoMemory);
    };
    let kind = read_kind(sides, &mut reader, desk)?;
    let marks = gather_kind(alloc, kind, &mut reader, desk)?;
    Ok(Further { kind, marks })
}

/// Reads the further report in a file, about a picture with these sides.
pub(crate) fn read_further<D: Desk>(
    alloc: Global,
    name: &[u8],
    sides: P2,
    desk: &mut D,
) -> Result<Further, OverFault>
    ensures answer { FurtherInFile (flat sides) name.now
        (D.state desk.old) (D.state desk.new) result }
    ensures only { OnlyReads (D.state desk.old) (D.state desk.new) }
{
    match desk.begin(Place::Report, name) {
        Ok(()) => read_begun(alloc, sides, desk),
        Err(_) => Err(OverFault::ReadFault),
    }
}
