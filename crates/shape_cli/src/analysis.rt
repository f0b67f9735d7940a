//! Analyses of pictures and of volumes: one call for either.
//! What is promised of an analysis of either is the same.
ghost use Rattle.std.specs.Prelude.{◌≡◌, ◌<◌, ℕ, List, [], IfOk, Some, length, slice_get};
ghost use Rattle.shape_terms.specs.Pictures.{Picture};
ghost use Rattle.shape_terms.specs.Thinning.{Rule};
ghost use Rattle.shape_terms.specs.Shelves.{Named, names_of, rules_of};
ghost use Rattle.report_terms.specs.Subjects.{subject_of};
ghost use Rattle.shape_desk.specs.Desk.{DeskState};
ghost use Rattle.report_text.specs.Telling.{IsTelling, Tells};
ghost use Rattle.shape_rules.specs.Ruled.{rules_on};
ghost use Rattle.shape_analyse.specs.Analyses.{IsReportBy};
ghost use Rattle.shape_analyse.specs.Finding.{AreFindingsOf};
ghost use Rattle.shape_analyse.specs.Tallies.{IsTallyOf};
ghost use Rattle.shape_cli.specs.Parts.{picture_of, findings_of};

use crate::picture::Image;
use report_text::Page;
use shape_analyse::{Findings, Tally, find_flat, find_solid};
use shape_desk::Desk;
use shape_rules::Shelf;
use shape_space::{NoMemory, P2, P3};
use std::alloc::Global;

/// What was found of a picture or of a volume.
#[derive(Drop)]
pub enum Analysis<'a> {
    Flat(Findings<'a, P2>),
    Solid(Findings<'a, P3>),
}

/// The analysis of a picture by the rule with a number.
pub(crate) fn analysis_of<'a>(
    alloc: Global,
    image: &'a Image,
    shelf: &mut Shelf,
    which: usize,
) -> Result<Analysis<'a>, NoMemory>
    requires { which < length shelf.old }
    ensures found { IfOk result (λ a. AreFindingsOf (picture_of image.now) (names_of shelf.old)
        (rules_on means shelf.old) which (findings_of a)) }
    ensures kept { rules_on means shelf.new ≡ rules_on means shelf.old }
{
    match image {
        Image::Flat(grid) => Ok(Analysis::Flat(find_flat(alloc, grid, shelf, which)?)),
        Image::Solid(grid) => Ok(Analysis::Solid(find_solid(alloc, grid, shelf, which)?)),
    }
}

impl<'a> Analysis<'a> {
    /// Tells the report of the picture.
    pub(crate) fn tell<D: Desk>(&self, page: &mut Page, desk: &mut D)
        ensures { (X : Picture) (names : List (List ℕ)) (rules : List (Named Rule)) (which : ℕ)
            (name : List ℕ) (begun : DeskState)
            → AreFindingsOf X names rules which (findings_of self.now)
            → slice_get names which ≡ Some name → IsTelling begun [] page.old (D.state desk.old)
            → Tells (IsReportBy (subject_of X rules) name) begun page.new (D.state desk.new) }
    {
        match self {
            Analysis::Flat(findings) => findings.tell(page, desk),
            Analysis::Solid(findings) => findings.tell(page, desk),
        }
    }

    /// The numbers of the picture and of its thinning.
    pub(crate) fn tally(&self) -> Tally
        ensures { (X : Picture) (names : List (List ℕ)) (rules : List (Named Rule)) (which : ℕ)
            (rule : Rule) → AreFindingsOf X names rules which (findings_of self.now)
            → slice_get (rules_of rules) which ≡ Some rule → IsTallyOf X rule result }
    {
        match self {
            Analysis::Flat(findings) => findings.tally(),
            Analysis::Solid(findings) => findings.tally(),
        }
    }
}
