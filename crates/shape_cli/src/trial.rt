//! The command `trial`: a picture that a seed gives, its report, the check of this report, and a line of numbers.
//! Files play no part in it, so its line is the same on every machine; the numbers are those that the analysis tells.
ghost use Rattle.std.specs.Prelude.{◌≡◌, ℕ, List, Some, IfOk, slice_get};
ghost use Rattle.std.specs.String.{string_bytes};
ghost use Rattle.shape_terms.specs.Pictures.{Picture};
ghost use Rattle.shape_terms.specs.Thinning.{Rule};
ghost use Rattle.shape_terms.specs.Shelves.{Named};
ghost use Rattle.report_terms.specs.Holds.{Holds};
ghost use Rattle.report_terms.specs.Subjects.{subject_of};
ghost use Rattle.shape_rules.specs.Ruled.{rules_on};
ghost use Rattle.shape_cli.specs.Sources.{read_kind};
ghost use Rattle.shape_cli.specs.Commands.{Asked, AreTrial};
ghost use Rattle.shape_analyse.specs.Analyses.{IsReportBy};
ghost use Rattle.shape_analyse.specs.Finding.{AreFindingsOf};
ghost use Rattle.shape_cli.specs.Parts.{picture_of, findings_of};
ghost use Rattle.shape_desk.specs.Files.{KeepsFiles};
ghost use Rattle.shape_cli.specs.Runs.{Ran};
ghost use Rattle.shape_cli.specs.Trials.{IsTriedBy, trial_picture, counted_text, thinned_text, trial_text};

use crate::analysis::{Analysis, analysis_of};
use crate::outcome::Outcome;
use crate::output::OutputDesk;
use crate::picture::Image;
use crate::source::Kind;
use crate::verdict::check_analysis;
use report_text::Page;
use shape_analyse::{Extent, Tally};
use shape_check::{CheckFault, Judgement};
use shape_desk::{Desk, SteadyDesk, put_all};
use shape_grid::make_picture;
use shape_rules::Shelf;
use shape_space::NoMemory;
use std::alloc::{AllocError, Global};

// The picture that a seed gives.
fn image_of(alloc: Global, kind: Kind, seed: u32, side: u32) -> Result<Image, NoMemory>
    requires { AreTrial (read_kind kind) seed side }
    ensures { IfOk result (λ v. picture_of v ≡ trial_picture (read_kind kind) seed side) }
{
    match kind {
        Kind::Flat => Ok(Image::Flat(make_picture(alloc, seed, side)?)),
        Kind::Solid => Ok(Image::Solid(make_picture(alloc, seed, side)?)),
    }
}

// The report that an analysis tells.
fn text_of(alloc: Global, analysis: Analysis<'_>) -> Result<Vec<u8>, NoMemory>
    ensures { (X : Picture) (names : List (List ℕ)) (rules : List (Named Rule)) (which : ℕ)
        (name : List ℕ) → AreFindingsOf X names rules which (findings_of analysis.entry)
        → slice_get names which ≡ Some name
        → IfOk result (λ t. IsReportBy (subject_of X rules) name t.items) }
{
    let mut page = Page::new(alloc)?;
    let mut desk = OutputDesk::new(alloc);
    analysis.tell(&mut page, &mut desk);
    match page.finish(&mut desk) {
        Ok(()) => Ok(desk.into_text()),
        Err(_) => Err(NoMemory),
    }
}

// Checks a report that holds of the picture.
fn confirm(alloc: Global, image: &Image, report: Vec<u8>, shelf: &mut Shelf) -> Result<(), NoMemory>
    requires { Holds
        (subject_of (picture_of image.now) (rules_on means shelf.old)) report.items }
{
    let mut desk = SteadyDesk::new(Vec::new(alloc), report);
    match check_analysis(alloc, image, shelf, &mut desk) {
        Ok(Judgement::Yes) => Ok(()),
        // A report that holds gets no other verdict, and this desk does not fail.
        Ok(Judgement::No { .. }) => unreachable!(),
        Err(CheckFault::ReadFault) => unreachable!(),
        Err(CheckFault::NoMemory) => Err(NoMemory),
    }
}

// The numbers of the picture that a seed gives, by the last rule on the shelf, once its report got yes.
fn tally_of(
    alloc: Global,
    kind: Kind,
    seed: u32,
    side: u32,
    shelf: &mut Shelf,
) -> Result<Tally, NoMemory>
    requires { AreTrial (read_kind kind) seed side }
    ensures { IfOk result
        (IsTriedBy (rules_on means shelf.old) (read_kind kind) seed side) }
{
    shelf.has_names();
    let last = shelf.len() - 1;
    let image = image_of(alloc, kind, seed, side)?;
    let analysis = analysis_of(alloc, &image, shelf, last)?;
    let tally = analysis.tally();
    let report = text_of(alloc, analysis)?;
    confirm(alloc, &image, report, shelf)?;
    Ok(tally)
}

// The seed, the side and what was counted of the picture.
fn counted(alloc: Global, seed: u32, side: u32, tally: Tally) -> Result<String, AllocError>
    ensures { IfOk result (λ s. string_bytes s ≡ counted_text seed side tally) }
{
    let points = tally.points;
    let object = tally.parts.object;
    let background = tally.parts.background;
    format!(in alloc; "{seed} {side} points {points} parts {object} {background}")
}

// What was counted of the thinning, and the verdict.
fn thinned(alloc: Global, tally: Tally) -> Result<String, AllocError>
    ensures { IfOk result (λ s. string_bytes s ≡ thinned_text tally) }
{
    let events = tally.events;
    let kept = tally.kept;
    format!(in alloc; " events {events} kept {kept} yes\n")
}

// The line of a trial.
fn line_of(alloc: Global, seed: u32, side: u32, tally: Tally) -> Result<String, AllocError>
    ensures { IfOk result (λ s. string_bytes s ≡ trial_text seed side tally tally.extent) }
{
    let head = counted(alloc, seed, side, tally)?;
    let end = thinned(alloc, tally)?;
    match tally.extent {
        Extent::Contours { contours, segments } => {
            format!(in alloc; "trial pbm {head} contours {contours} segments {segments}{end}")
        }
        Extent::Faces { exposed } => format!(in alloc; "trial raw {head} exposed {exposed}{end}"),
    }
}

// Makes, analyses and checks the picture that a seed gives, and writes the line.
pub(crate) fn try_seed<D: Desk>(
    alloc: Global,
    kind: Kind,
    seed: u32,
    side: u32,
    shelf: &mut Shelf,
    desk: &mut D,
) -> Outcome
    requires { AreTrial (read_kind kind) seed side }
    ensures ran { Ran (rules_on means shelf.old)
        (Asked.Trial (read_kind kind) seed side) (D.state desk.old) (D.state desk.new) result }
    ensures kept { KeepsFiles (D.state desk.old) (D.state desk.new) }
{
    let tally = match tally_of(alloc, kind, seed, side, shelf) {
        Ok(tally) => tally,
        Err(_) => return Outcome::NoMemory,
    };
    let line = match line_of(alloc, seed, side, tally) {
        Ok(line) => line,
        Err(_) => return Outcome::NoMemory,
    };
    match put_all(line.as_bytes(), desk) {
        Ok(()) => Outcome::Done,
        Err(_) => Outcome::WriteFault,
    }
}
