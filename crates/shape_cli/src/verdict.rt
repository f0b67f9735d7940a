//! The commands that check a report: the picture, then the report, then the verdict line.
//! The report is judged line by line; nothing of it is kept.
ghost use Rattle.std.specs.Prelude.{◌≡◌, ◌≤◌, ℕ, List, length, take, true};
ghost use Rattle.shape_terms.specs.Pictures.{Picture};
ghost use Rattle.shape_terms.specs.Thinning.{Rule};
ghost use Rattle.shape_terms.specs.Shelves.{Named};
ghost use Rattle.text_terms.specs.Reports.{Holds};
ghost use Rattle.shape_rules.specs.Ruled.{rules_on};
ghost use Rattle.shape_desk.specs.Desk.{OnlyReads, OnlyReadsAt, WritesText};
ghost use Rattle.shape_desk.specs.declared.desk.Place.TheVariants.{Report};
ghost use Rattle.report_text.specs.Checks.{HasChecked};
ghost use Rattle.report_terms.specs.Subjects.{subject_of};
ghost use Rattle.report_terms.specs.Sections.{analysis};
ghost use Rattle.shape_cli.specs.Sources.{kind_at, read_source};
ghost use Rattle.shape_cli.specs.Kinds.{Takes, ShowsOf, report_of, read_report_kind};
ghost use Rattle.shape_cli.specs.Commands.{Asked};
ghost use Rattle.shape_cli.specs.Outcomes.{outcome_of};
ghost use Rattle.shape_cli.specs.Parts.{Suits, Judged, IsCounted, picture_of, verdict_text};
ghost use Rattle.shape_desk.specs.Files.{KeepsFiles};
ghost use Rattle.shape_cli.specs.Runs.{Ran};

use crate::kind::ReportKind;
use crate::outcome::{Outcome, refused};
use crate::picture::{Image, open_picture};
use crate::source::Source;
use itoa::Buffer;
use shape_check::law::holding_shows;
use shape_check::{CheckFault, Judgement, check_flat, check_solid};
use shape_desk::{Desk, Failed, Place, put_all, put_word};
use shape_rules::Shelf;
use std::alloc::Global;

// Checks the analysis that is begun against a picture.
pub(crate) fn check_analysis<D: Desk>(
    alloc: Global,
    image: &Image,
    shelf: &mut Shelf,
    desk: &mut D,
) -> Result<Judgement, CheckFault>
    requires { (D.state desk.old).begun Report ≡ true }
    ensures checked { HasChecked
        (analysis (subject_of (picture_of image.now) (rules_on means shelf.old)))
        ((D.state desk.old).left Report) (D.state desk.old) (D.state desk.new) result }
    ensures reads { OnlyReadsAt Report (D.state desk.old) (D.state desk.new) }
{
    match image {
        Image::Flat(grid) => check_flat(alloc, grid, desk, shelf),
        Image::Solid(grid) => check_solid(alloc, grid, desk, shelf),
    }
}

// Checks the report of a kind that is begun against a picture.
fn check_image<D: Desk>(
    alloc: Global,
    image: &Image,
    kind: ReportKind,
    shelf: &mut Shelf,
    desk: &mut D,
) -> Result<Judgement, CheckFault>
    requires begun { (D.state desk.old).begun Report ≡ true }
    requires suits { Suits (read_report_kind kind) image.now }
    ensures checked { HasChecked
        (report_of (rules_on means shelf.old) (read_report_kind kind) (picture_of image.now))
        ((D.state desk.old).left Report) (D.state desk.old) (D.state desk.new) result }
    ensures reads { OnlyReadsAt Report (D.state desk.old) (D.state desk.new) }
{
    match kind {
        ReportKind::Analysis => check_analysis(alloc, image, shelf, desk),
        ReportKind::Further(kind) => kind.check(alloc, image, desk),
    }
}

// What a report of a kind that holds shows: what counts is the clause.
fn shows(kind: ReportKind)
    ensures { (rules : List (Named Rule)) (X : Picture) (text : List ℕ)
        → Holds (report_of rules (read_report_kind kind) X) text
        → ShowsOf rules (read_report_kind kind) X text }
{
    match kind {
        ReportKind::Analysis => holding_shows(),
        ReportKind::Further(kind) => kind.shows(),
    }
}

// Judges the report of a kind in a file.
fn judge<D: Desk>(
    alloc: Global,
    image: &Image,
    kind: ReportKind,
    report: &[u8],
    shelf: &mut Shelf,
    desk: &mut D,
) -> Result<Judgement, CheckFault>
    requires suits { Suits (read_report_kind kind) image.now }
    ensures judged { Judged (rules_on means shelf.old) (read_report_kind kind)
        (picture_of image.now) report.now (D.state desk.old) (D.state desk.new) result }
    ensures only { OnlyReads (D.state desk.old) (D.state desk.new) }
{
    shows(kind);
    desk.begin(Place::Report, report)?;
    check_image(alloc, image, kind, shelf, desk)
}

// Puts the verdict line into a buffer.
fn put_verdict(verdict: Judgement, buf: &mut [u8]) -> usize
    requires room { length buf.old ≡ 32 }
    requires counted { IsCounted verdict }
    ensures text { take result buf.new ≡ verdict_text verdict }
    ensures room { result ≤ length buf.new }
{
    match verdict {
        Judgement::Yes => put_word(b"yes\n", buf, 0),
        Judgement::No { line } => {
            let mut digits = Buffer::new();
            let end = put_word(b"no ", buf, 0);
            let end = put_word(digits.format(line).as_bytes(), buf, end);
            put_word(b"\n", buf, end)
        }
    }
}

// Writes the verdict line.
fn write_verdict<D: Desk>(verdict: Judgement, desk: &mut D) -> Result<(), Failed>
    requires { IsCounted verdict }
    ensures { WritesText (verdict_text verdict) (D.state desk.old) (D.state desk.new) result }
{
    let mut buf = [0; 32];
    let len = put_verdict(verdict, &mut buf);
    put_all(&buf[..len], desk)
}

// The outcome of a verdict that was written.
fn given(verdict: Judgement) -> Outcome
    ensures { result ≡ outcome_of verdict }
{
    match verdict {
        Judgement::Yes => Outcome::Yes,
        Judgement::No { line } => Outcome::No { line },
    }
}

// Checks the report of a kind in a file against the picture at a source.
pub(crate) fn check_file<D: Desk>(
    alloc: Global,
    source: Source<'_>,
    kind: ReportKind,
    report: &[u8],
    shelf: &mut Shelf,
    desk: &mut D,
) -> Outcome
    requires takes { Takes (read_report_kind kind) (kind_at (read_source source)) }
    ensures ran { Ran (rules_on means shelf.old)
        (Asked.Check (read_source source.entry) (read_report_kind kind) report.now)
        (D.state desk.old) (D.state desk.new) result }
    ensures kept { KeepsFiles (D.state desk.old) (D.state desk.new) }
{
    let image = match open_picture(alloc, source, desk) {
        Ok(image) => image,
        Err(error) => return refused(error),
    };
    let verdict = match judge(alloc, &image, kind, report, shelf, desk) {
        Ok(verdict) => verdict,
        Err(CheckFault::ReadFault) => return Outcome::ReadFault,
        Err(CheckFault::NoMemory) => return Outcome::NoMemory,
    };
    match write_verdict(verdict, desk) {
        Ok(()) => given(verdict),
        Err(_) => Outcome::WriteFault,
    }
}
