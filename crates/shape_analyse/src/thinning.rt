//! The lines of the thinning of a picture: its events, the counts of the points left, and the end of the report.
//! The thinning itself comes from `shape_thin`; both numbers of components are those of the picture.
ghost use Rattle.std.specs.Prelude.{◌≡◌, IfOk, length, pos, negsuc};
ghost use Rattle.shape_terms.specs.Limits.{most_coordinate};
ghost use Rattle.shape_terms.specs.Pictures.{object_points};
ghost use Rattle.shape_terms.specs.Parts.{Counts};
ghost use Rattle.shape_terms.specs.Thinning.{Stage, IsThinning};
ghost use Rattle.report_terms.specs.Lines.{line_text, IsLineOf};
ghost use Rattle.shape_terms.specs.Distances.{AreDistances};
ghost use Rattle.shape_thin.specs.Runs.{IsRunOf, event_of, event_point};
ghost use Rattle.shape_terms.specs.FramedBox.{IsWithin};
ghost use Rattle.shape_thin.specs.Laws.{KeepsParts};
ghost use Rattle.shape_desk.specs.Desk.{DeskState};
ghost use Rattle.report_text.specs.Telling.{Tells, TellsMore};
ghost use Rattle.shape_analyse.specs.Analyses.{IsReportBy};
ghost use Rattle.shape_analyse.specs.Growing.{Aim, IsTextOf, HasSurveyed, HasEvents, HasKept, event_line};

use report_text::Page;
use shape_adj::Parts;
use shape_cells::Cells;
use shape_desk::Desk;
use shape_grid::Grid;
use shape_report::Line;
use shape_rules::EndRule;
use shape_space::{NoMemory, Point, Steps};
use shape_thin::{Event, Thinning, thin};
use shape_topo::SimpleMask;
use std::alloc::Global;
use std::marker::Brand;
use std::sync::ledger::{Blank, Ledger};

// The thinning of a picture, with a counter on this ledger.
fn counted<P: SimpleMask, L: Ledger>(
    alloc: Global,
    blank: Blank,
    grid: &Grid<P>,
    distances: Cells<u32>,
    rule: &mut Box<dyn EndRule>,
) -> Result<Thinning<P>, NoMemory>
    requires name { blank.name ≡ L.name }
    requires parts { blank.parts ≡ L.parts }
    requires whole { blank.parts ≡ 1 }
    requires distances { AreDistances grid.now distances.values }
    ensures thinning { IfOk result (IsRunOf (means rule.old) grid.now (state rule.new)) }
    ensures kept { IfOk result (λ t. KeepsParts grid.now t.left) }
    ensures same_rule { means rule.new ≡ means rule.old }
{
    let mut steps = Steps::<L>::new(blank);
    thin(alloc, grid, distances, rule, &mut steps)
}

// The thinning of a picture with these squared distances by a rule.
pub(crate) fn thinned<P: SimpleMask>(
    alloc: Global,
    grid: &Grid<P>,
    distances: Cells<u32>,
    rule: &mut Box<dyn EndRule>,
) -> Result<Thinning<P>, NoMemory>
    requires { AreDistances grid.now distances.values }
    ensures thinning { IfOk result (IsRunOf (means rule.old) grid.now (state rule.new)) }
    ensures kept { IfOk result (λ t. KeepsParts grid.now t.left) }
    ensures same_rule { means rule.new ≡ means rule.old }
{
    counted::<P, Brand>(alloc, Blank::new(1), grid, distances, rule)
}

// Tells the line of an event.
fn tell_event<P: Point, D: Desk>(event: Event<P>, page: &mut Page, desk: &mut D)
    requires { IsWithin (negsuc 0) (pos most_coordinate) (event_point (event_of P.coords event)) }
    ensures told { TellsMore (line_text (event_line (event_of P.coords event)))
        page.old page.new (D.state desk.old) (D.state desk.new) }
    ensures fields { IsLineOf P.DIM (event_line (event_of P.coords event)) }
{
    match event {
        Event::Del(p) => page.line(&Line::Del { p }, desk),
        Event::Tip(p) => page.line(&Line::Tip { p }, desk),
    }
}

// Tells the line of each event.
fn tell_events<P: Point, D: Desk>(thinning: &Thinning<P>, page: &mut Page, desk: &mut D)
    ensures { (X : Aim) (stage : Stage) (begun : DeskState)
        → IsThinning X.rule X.subject.picture thinning.now.events stage
        → Tells (IsTextOf (HasEvents P.DIM X thinning.now.events 0))
        begun page.old (D.state desk.old)
        → Tells (IsTextOf (HasEvents P.DIM X thinning.now.events (length thinning.now.events)))
        begun page.new (D.state desk.new) }
{
    for i in 0..thinning.len() {
        tell_event(thinning.event(i), page, desk);
    }
}

// Tells the line of the points left.
fn tell_kept<P: Point, D: Desk>(
    thinning: &Thinning<P>,
    counted: Parts,
    page: &mut Page,
    desk: &mut D,
)
    ensures { (X : Aim) (stage : Stage) (begun : DeskState)
        → IsThinning X.rule X.subject.picture thinning.now.events stage
        → stage.left ≡ thinning.now.left
        → Counts thinning.now.left (length (object_points thinning.now.left))
        counted.object counted.background
        → Tells (IsTextOf (HasEvents P.DIM X thinning.now.events (length thinning.now.events)))
        begun page.old (D.state desk.old)
        → Tells (IsTextOf (HasKept X)) begun page.new (D.state desk.new) }
{
    let line: Line<P> = Line::Kept {
        points: thinning.left().count(),
        object: counted.object,
        background: counted.background,
    };
    page.line(&line, desk);
}

// Tells the lines of the thinning and the last line, where the picture has so many components.
pub(crate) fn tell_thinning<P: Point, D: Desk>(
    thinning: &Thinning<P>,
    counted: Parts,
    page: &mut Page,
    desk: &mut D,
)
    ensures { (X : Aim) (stage : Stage) (begun : DeskState)
        → IsThinning X.rule X.subject.picture thinning.now.events stage
        → stage.left ≡ thinning.now.left
        → Counts thinning.now.left (length (object_points thinning.now.left))
        counted.object counted.background
        → Tells (HasSurveyed P.DIM X) begun page.old (D.state desk.old)
        → Tells (IsReportBy X.subject X.name) begun page.new (D.state desk.new) }
{
    tell_events(thinning, page, desk);
    tell_kept(thinning, counted, page, desk);
    page.line(&Line::<P>::End, desk);
}
