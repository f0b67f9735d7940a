//! What is found of a picture, and the report that tells it: all is found first and kept small, then its lines are told.
//! A further section of a report is a field here, with its place in `find` and in `tell`.
ghost use Rattle.std.specs.Prelude.{◌≡◌, ◌≢◌, ◌<◌, ℕ, List, [], IfOk, Some, length, slice_get};
ghost use Rattle.shape_terms.specs.Pictures.{Picture};
ghost use Rattle.shape_terms.specs.Thinning.{Rule};
ghost use Rattle.shape_terms.specs.Shelves.{Named, names_of, rules_of};
ghost use Rattle.report_terms.specs.Subjects.{subject_of};
ghost use Rattle.shape_desk.specs.Desk.{DeskState};
ghost use Rattle.report_text.specs.Telling.{IsTelling, Tells};
ghost use Rattle.shape_rules.specs.Ruled.{rules_on};
ghost use Rattle.shape_analyse.specs.Analyses.{IsReportBy};
ghost use Rattle.shape_analyse.specs.Finding.{AreFindingsOf};
ghost use Rattle.shape_analyse.specs.Tallies.{IsTallyOf};

use crate::begin::tell_beginning;
use crate::outline::{Outline, Outlined};
use crate::tally::Tally;
use crate::thinning::{tell_thinning, thinned};
use report_text::Page;
use shape_adj::{Parts, parts};
use shape_desk::Desk;
use shape_dist::{Features, Surveyed, survey};
use shape_grid::Grid;
use shape_rules::{Name, Shelf};
use shape_space::{NoMemory, P2, P3, Point};
use shape_thin::Thinning;
use std::alloc::Global;
use std::marker::Model;

/// What was found of a picture: the numbers of its components, the nearest background points, its outline, and its
/// thinning by a rule.
///
/// Of its report the lines of the outline are kept as they are spelled, and of each other line no more than a few bytes.
#[derive(Drop)]
pub struct Findings<'a, P: Point> {
    grid: &'a Grid<P>,
    rule: Name,
    counted: Parts,
    features: Features<P>,
    outline: Outline,
    thinning: Thinning<P>,
}

impl<'a, P: Point> Model for Findings<'a, P> {
    ghost use Rattle.shape_rules.specs.Names.{word_of};
    ghost use Rattle.shape_analyse.specs.Finding.{Found, AreFound};

    ghost Value = { Found };

    ghost view = { λ f. record {
      picture = f.grid.now;
      rule = word_of f.rule;
      object = f.counted.object;
      background = f.counted.background;
      nears = f.features;
      outline = f.outline.lines;
      extent = f.outline.extent;
      run = f.thinning;
    } };

    ghost invariant = { λ f. AreFound P.DIM (record {
      picture = f.grid.now;
      rule = word_of f.rule;
      object = f.counted.object;
      background = f.counted.background;
      nears = f.features;
      outline = f.outline.lines;
      extent = f.outline.extent;
      run = f.thinning;
    }) };
}

// What is found of a picture of any dimension. The distances and the queue of the thinning are gone before the outline is found.
fn find<'a, P: Outlined>(
    alloc: Global,
    grid: &'a Grid<P>,
    shelf: &mut Shelf,
    which: usize,
) -> Result<Findings<'a, P>, NoMemory>
    requires { which < length shelf.old }
    ensures found { IfOk result (AreFindingsOf grid.now (names_of shelf.old)
        (rules_on means shelf.old) which) }
    ensures kept { rules_on means shelf.new ≡ rules_on means shelf.old }
    ensures others { (j : ℕ) → j ≢ which → slice_get shelf.new j ≡ slice_get shelf.old j }
{
    let rule = shelf.name(which);
    let counted = parts(alloc, grid)?;
    let Surveyed {
        features,
        distances,
    } = survey(alloc, grid)?;
    let thinning = thinned(alloc, grid, distances, shelf.rule(which))?;
    let outline = P::outline(alloc, grid)?;
    Ok(Findings {
        grid,
        rule,
        counted,
        features,
        outline,
        thinning,
    })
}

/// What is found of a flat picture, thinned by a rule of the shelf.
///
/// Distances, contours and segments take time in proportion to the points of the framed box and of the contours, the
/// thinning n log n. The rule `which` begins anew, and its state is free afterwards, also where memory was wanting.
pub fn find_flat<'a>(
    alloc: Global,
    grid: &'a Grid<P2>,
    shelf: &mut Shelf,
    which: usize,
) -> Result<Findings<'a, P2>, NoMemory>
    requires { which < length shelf.old }
    ensures found { IfOk result (AreFindingsOf grid.now (names_of shelf.old)
        (rules_on means shelf.old) which) }
    ensures kept { rules_on means shelf.new ≡ rules_on means shelf.old }
    ensures others { (j : ℕ) → j ≢ which → slice_get shelf.new j ≡ slice_get shelf.old j }
{
    find::<P2>(alloc, grid, shelf, which)
}

/// What is found of a volume, thinned by a rule of the shelf.
///
/// Distances take time in proportion to the points of the framed box, the thinning n log n. The rule `which` begins anew,
/// and its state is free afterwards, also where memory was wanting.
pub fn find_solid<'a>(
    alloc: Global,
    grid: &'a Grid<P3>,
    shelf: &mut Shelf,
    which: usize,
) -> Result<Findings<'a, P3>, NoMemory>
    requires { which < length shelf.old }
    ensures found { IfOk result (AreFindingsOf grid.now (names_of shelf.old)
        (rules_on means shelf.old) which) }
    ensures kept { rules_on means shelf.new ≡ rules_on means shelf.old }
    ensures others { (j : ℕ) → j ≢ which → slice_get shelf.new j ≡ slice_get shelf.old j }
{
    find::<P3>(alloc, grid, shelf, which)
}

impl<'a, P: Point> Findings<'a, P> {
    /// Tells the report of the picture, which holds of it. It takes no memory.
    pub fn tell<D: Desk>(&self, page: &mut Page, desk: &mut D)
        ensures { (X : Picture) (names : List (List ℕ)) (rules : List (Named Rule)) (which : ℕ)
            (name : List ℕ) (begun : DeskState) → AreFindingsOf X names rules which self.now
            → slice_get names which ≡ Some name → IsTelling begun [] page.old (D.state desk.old)
            → Tells (IsReportBy (subject_of X rules) name) begun page.new (D.state desk.new) }
    {
        tell_beginning(
            self.grid,
            &self.features,
            self.rule,
            self.counted,
            page,
            desk,
        );
        page.text(self.outline.lines.text(), desk);
        tell_thinning(&self.thinning, self.counted, page, desk);
    }

    /// The numbers of the picture and of its thinning.
    pub fn tally(&self) -> Tally
        ensures { (X : Picture) (names : List (List ℕ)) (rules : List (Named Rule)) (which : ℕ)
            (rule : Rule) → AreFindingsOf X names rules which self.now
            → slice_get (rules_of rules) which ≡ Some rule → IsTallyOf X rule result }
    {
        Tally {
            points: self.grid.count(),
            parts: self.counted,
            extent: self.outline.extent,
            events: self.thinning.len(),
            kept: self.thinning.left().count(),
        }
    }
}
