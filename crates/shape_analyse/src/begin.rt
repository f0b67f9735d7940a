//! The first lines of a report of any dimension: the heading, the counts, and the nearest background points.
//! What they tell is found by the crates below; nothing here asks what comes behind them.
ghost use Rattle.std.specs.Prelude.{◌≡◌, ◌≤◌, ◌<◌, ◌^◌, ℕ, List, IsTrue, length, negsuc, pos};
ghost use Rattle.shape_terms.specs.Pictures.{object_points};
ghost use Rattle.shape_terms.specs.Parts.{Counts};
ghost use Rattle.shape_terms.specs.FramedBox.{IsWithin};
ghost use Rattle.shape_terms.specs.Limits.{most_coordinate};
ghost use Rattle.shape_terms.specs.Points.{in_box, sides_of};
ghost use Rattle.shape_terms.specs.Thinning.{Rule};
ghost use Rattle.shape_terms.specs.Shelves.{Named};
ghost use Rattle.report_terms.specs.Forms.{IsNumber, last_number};
ghost use Rattle.report_terms.specs.Lines.{line_text, IsLineOf};
ghost use Rattle.report_terms.specs.Subjects.{IsOnShelf};
ghost use Rattle.shape_desk.specs.Desk.{DeskState};
ghost use Rattle.report_text.specs.Telling.{Tells, TellsMore};
ghost use Rattle.shape_terms.specs.Distances.{AreFeatures};
ghost use Rattle.shape_rules.specs.Names.{word_of};
ghost use Rattle.shape_analyse.specs.Growing.{aim_of, IsGrowing, IsTextOf, HasNears, IsNoText, near_line};

use report_text::Page;
use shape_adj::Parts;
use shape_desk::Desk;
use shape_dist::Features;
use shape_grid::Grid;
use shape_report::Line;
use shape_rules::Name;
use shape_space::{Point, Sides, squared_distance};

// The greatest number that a report of pictures of this dimension has.
fn last_number<P: Point>() -> u8
    ensures value { result ≡ last_number P.DIM }
    ensures number { IsNumber P.DIM result }
{
    if P::DIM == 2 { 2 } else { 1 }
}

// Tells the `shape` line and the `parts` line.
fn tell_head<P: Point, D: Desk>(
    grid: &Grid<P>,
    rule: Name,
    counted: Parts,
    page: &mut Page,
    desk: &mut D,
)
    requires { Counts grid.now (length (object_points grid.now)) counted.object counted.background }
    ensures told { (shelf : List (Named Rule)) (by : Rule) (begun : DeskState)
        → IsOnShelf shelf (word_of rule) by
        → Tells IsNoText begun page.old (D.state desk.old)
        → Tells (IsTextOf (IsGrowing (aim_of grid.now shelf (word_of rule) by) 0))
        begun page.new (D.state desk.new) }
    ensures axes { length grid.now.sides ≡ P.DIM }
    ensures few { P.DIM ≤ 3 }
    ensures points { length (object_points grid.now) < 2 ^ 32 }
{
    let sides = grid.sides().lengths;
    let head = Line::Shape {
        number: last_number::<P>(),
        sides,
        rule,
    };
    let counts: Line<P> = Line::Parts {
        points: grid.count(),
        object: counted.object,
        background: counted.background,
    };
    page.line(&head, desk);
    page.line(&counts, desk);
}

// Tells the `near` line of a point of the box, to which this background point is nearest.
fn tell_near<P: Point, D: Desk>(sides: Sides<P>, p: P, q: P, page: &mut Page, desk: &mut D)
    requires few { P.DIM ≤ 3 }
    requires inside { IsTrue (in_box (sides_of (P.coords sides.lengths)) (P.coords p)) }
    requires within { IsWithin (negsuc 0) (pos most_coordinate) (P.coords q) }
    ensures told { TellsMore (line_text (near_line (P.coords p) (P.coords q)))
        page.old page.new (D.state desk.old) (D.state desk.new) }
    ensures fields { IsLineOf P.DIM (near_line (P.coords p) (P.coords q)) }
{
    let line = Line::Near {
        p,
        q,
        s: squared_distance(p, q),
    };
    page.line(&line, desk);
}

// Tells the `near` line of each object point.
fn tell_nears<P: Point, D: Desk>(
    grid: &Grid<P>,
    features: &Features<P>,
    page: &mut Page,
    desk: &mut D,
)
    requires axes { length grid.now.sides ≡ P.DIM }
    requires few { P.DIM ≤ 3 }
    requires points { length (object_points grid.now) < 2 ^ 32 }
    requires features { AreFeatures grid.now features.now }
    ensures { (shelf : List (Named Rule)) (name : List ℕ) (by : Rule) (begun : DeskState)
        → Tells (IsTextOf (IsGrowing (aim_of grid.now shelf name by) 0))
        begun page.old (D.state desk.old)
        → Tells (HasNears (aim_of grid.now shelf name by)) begun page.new (D.state desk.new) }
{
    let sides = grid.sides();
    let mut i = 0;
    for p in grid.objects() {
        tell_near(sides, p, features.point(i), page, desk);
        i += 1;
    }
}

// Tells all lines before those of contours.
pub(crate) fn tell_beginning<P: Point, D: Desk>(
    grid: &Grid<P>,
    features: &Features<P>,
    rule: Name,
    counted: Parts,
    page: &mut Page,
    desk: &mut D,
)
    requires features { AreFeatures grid.now features.now }
    requires counts { Counts grid.now (length (object_points grid.now))
        counted.object counted.background }
    ensures { (shelf : List (Named Rule)) (by : Rule) (begun : DeskState)
        → IsOnShelf shelf (word_of rule) by
        → Tells IsNoText begun page.old (D.state desk.old)
        → Tells (HasNears (aim_of grid.now shelf (word_of rule) by))
        begun page.new (D.state desk.new) }
{
    tell_head(grid, rule, counted, page, desk);
    tell_nears(grid, features, page, desk);
}
