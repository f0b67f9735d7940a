//! The commands that make a report: the picture, then its report, then the output.
//! All that a report tells is found before its first byte is written.
ghost use Rattle.std.specs.Prelude.{◌≡◌, ◌<◌, ℕ, List, Some, length, slice_get};
ghost use Rattle.shape_terms.specs.Shelves.{names_of};
ghost use Rattle.report_terms.specs.Subjects.{subject_of};
ghost use Rattle.shape_desk.specs.Files.{KeepsFiles};
ghost use Rattle.shape_rules.specs.Ruled.{rules_on};
ghost use Rattle.shape_analyse.specs.Analyses.{IsReportBy};
ghost use Rattle.shape_cli.specs.Sources.{kind_at, read_source};
ghost use Rattle.shape_cli.specs.Further.{read_further, row_of};
ghost use Rattle.shape_cli.specs.Kinds.{Makes, Takes, IsFound, kind_of, read_wanted};
ghost use Rattle.shape_cli.specs.Commands.{Asked};
ghost use Rattle.shape_cli.specs.Parts.{Suits, IsFit, picture_of};
ghost use Rattle.shape_cli.specs.Making.{Wrote};
ghost use Rattle.shape_cli.specs.Runs.{Ran};
ghost use Rattle.shape_cli.specs.declared.making.MakeFault.TheVariants as Fault;

use crate::analysis::analysis_of;
use crate::further::FurtherKind;
use crate::kind::Wanted;
use crate::outcome::{Outcome, refused};
use crate::picture::{Image, open_picture};
use crate::source::Source;
use report_text::{Page, write_report};
use shape_desk::Desk;
use shape_rules::Shelf;
use shape_space::NoMemory;
use std::alloc::Global;

/// Why a report was not written whole.
#[derive(Clone, Copy, Debug, PartialEq, Eq)]
pub enum MakeFault {
    /// Memory was wanted and there was none. Nothing was written.
    NoMemory,
    /// A write failed. A front of the report was written.
    WriteFault,
}

impl From<NoMemory> for MakeFault {
    ghost from_gives = { λ _ fault. fault ≡ Fault.NoMemory };

    fn from(_fault: NoMemory) -> MakeFault {
        MakeFault::NoMemory
    }
}

// Writes the analysis of a picture by the rule with a number.
fn write_analysis<D: Desk>(
    alloc: Global,
    image: &Image,
    which: usize,
    shelf: &mut Shelf,
    desk: &mut D,
) -> Result<(), MakeFault>
    requires { which < length shelf.old }
    ensures { (name : List ℕ) → slice_get (names_of shelf.old) which ≡ Some name
        → Wrote (IsReportBy (subject_of (picture_of image.now) (rules_on means shelf.old)) name)
        (D.state desk.old) (D.state desk.new) result }
{
    let analysis = analysis_of(alloc, image, shelf, which)?;
    let mut page = Page::new(alloc)?;
    analysis.tell(&mut page, desk);
    match page.finish(desk) {
        Ok(()) => Ok(()),
        Err(_) => Err(MakeFault::WriteFault),
    }
}

// Writes the report of a further kind about a picture.
fn write_further<D: Desk>(
    alloc: Global,
    image: &Image,
    kind: FurtherKind,
    desk: &mut D,
) -> Result<(), MakeFault>
    requires { IsFit (row_of (read_further kind)).about image.now }
    ensures { Wrote ((row_of (read_further kind)).Makes (picture_of image.now))
        (D.state desk.old) (D.state desk.new) result }
{
    let report = kind.make(alloc, image)?;
    match write_report(&report, desk) {
        Ok(()) => Ok(()),
        Err(_) => Err(MakeFault::WriteFault),
    }
}

// Writes the report that is wanted of a picture.
fn make<D: Desk>(
    alloc: Global,
    image: &Image,
    wanted: Wanted<'_>,
    shelf: &mut Shelf,
    desk: &mut D,
) -> Result<(), MakeFault>
    requires found { IsFound (names_of shelf.old) wanted }
    requires suits { Suits (kind_of (read_wanted wanted)) image.now }
    ensures { Wrote (Makes (rules_on means shelf.old) (read_wanted wanted.entry)
        (picture_of image.now)) (D.state desk.old) (D.state desk.new) result }
{
    match wanted {
        Wanted::Analysis { which, .. } => write_analysis(alloc, image, which, shelf, desk),
        Wanted::Further(kind) => write_further(alloc, image, kind, desk),
    }
}

// Makes the report that is wanted of the picture at a source.
pub(crate) fn make_file<D: Desk>(
    alloc: Global,
    source: Source<'_>,
    wanted: Wanted<'_>,
    shelf: &mut Shelf,
    desk: &mut D,
) -> Outcome
    requires found { IsFound (names_of shelf.old) wanted }
    requires takes { Takes (kind_of (read_wanted wanted)) (kind_at (read_source source)) }
    ensures ran { Ran (rules_on means shelf.old)
        (Asked.Make (read_source source.entry) (read_wanted wanted.entry))
        (D.state desk.old) (D.state desk.new) result }
    ensures kept { KeepsFiles (D.state desk.old) (D.state desk.new) }
{
    let image = match open_picture(alloc, source, desk) {
        Ok(image) => image,
        Err(error) => return refused(error),
    };
    match make(alloc, &image, wanted, shelf, desk) {
        Ok(()) => Outcome::Done,
        Err(MakeFault::NoMemory) => Outcome::NoMemory,
        Err(MakeFault::WriteFault) => Outcome::WriteFault,
    }
}
