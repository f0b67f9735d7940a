//! Checking a report: its heading, and then the lines behind it, by a row of judges and the rule that the heading names.
//! How a text is gone through line by line is known to `report_text`.
ghost use Rattle.std.specs.Prelude.{◌≡◌, ◌<◌, ◌-◌, ◌^◌, ℕ, List, Option, true, length};
ghost use Rattle.shape_desk.specs.Desk.{OnlyReadsAt};
ghost use Rattle.shape_desk.specs.Line.{ahead_of};
ghost use Rattle.shape_desk.specs.declared.desk.Place.TheVariants.{Report};
ghost use Rattle.report_terms.specs.Subjects.{Subject, subject_of};
ghost use Rattle.report_terms.specs.Sections.{analysis};
ghost use Rattle.report_text.specs.Checks.{HasCome};
ghost use Rattle.shape_rules.specs.Ruled.{rules_on};
ghost use Rattle.shape_check.specs.Checks.{HasChecked};
ghost use Rattle.shape_check.specs.Going.{BehindHeading};

use crate::heading::find_heading;
use crate::judged::Judged;
use crate::judges::Row;
use crate::whole::{Flat, Solid};
use report_text::{CheckFault, Judgement, check_from};
use shape_desk::{Desk, LineReader};
use shape_grid::Grid;
use shape_report::Line;
use shape_rules::{EndRule, Shelf};
use shape_space::{P2, P3, Point};
use std::alloc::Global;

// Goes through the lines behind the heading, which named the rule.
fn check_behind<P: Point, R: Row<P>, D: Desk>(
    row: R,
    rule: &mut Box<dyn EndRule>,
    reader: &mut LineReader,
    desk: &mut D,
) -> Result<Judgement, CheckFault>
    requires begun { (D.state desk.old).begun Report ≡ true }
    requires few { R.room row < 2 ^ 63 - 1 }
    ensures checked { (X : Subject) (n : ℕ) (text : Option (List ℕ))
        → length X.picture.sides ≡ P.DIM → R.waits X.picture n row
        → HasCome (analysis X) (BehindHeading X n (means rule.old) R.section) text
        (ahead_of reader.old.ahead ((D.state desk.old).left Report)) 2
        → HasChecked X text (D.state desk.old) (D.state desk.new) result }
    ensures reads { OnlyReadsAt Report (D.state desk.old) (D.state desk.new) }
    ensures same_rule { means rule.new ≡ means rule.old }
{
    let mut judge = Judged { row, rule };
    let answer = check_from::<Line<P>, Judged<R>, D>(&mut judge, reader, desk, 2);
    // The judge is taken apart, so that the rule is known to be the one that it was lent.
    let Judged {
        row: _row,
        rule: _rule,
    } = judge;
    answer
}

// Checks a report of any dimension.
fn check<P: Point, R: Row<P>, D: Desk>(
    alloc: Global,
    grid: &Grid<P>,
    desk: &mut D,
    shelf: &mut Shelf,
) -> Result<Judgement, CheckFault>
    requires { (D.state desk.old).begun Report ≡ true }
    ensures checked { HasChecked (subject_of grid.now (rules_on means shelf.old))
        ((D.state desk.old).left Report) (D.state desk.old) (D.state desk.new) result }
    ensures reads { OnlyReadsAt Report (D.state desk.old) (D.state desk.new) }
    ensures shelf { rules_on means shelf.new ≡ rules_on means shelf.old }
{
    grid.is_picture();
    shelf.has_names();
    let mut reader = LineReader::new(alloc)?;
    let Some(given) = find_heading(grid.sides(), shelf, &mut reader, desk)? else {
        return Ok(Judgement::No { line: 1 });
    };
    let row = R::begin(alloc, grid, given.number)?;
    check_behind(row, shelf.rule(given.entry), &mut reader, desk)
}

/// Checks the report of a plane picture: whether the file that was begun at `Place::Report` holds
/// of it, where the rules are those on the shelf.
///
/// The file is read line by line and never whole: the bytes of its good lines are taken, and at most
/// 2048 more. `Yes` exactly where the report holds, and `No` exactly where its line is the first bad
/// one, where the desk tells the file. `ReadFault` comes only where `read_faults` rose in this call.
/// The state of the rule that the report names is free afterwards, whatever is answered.
pub fn check_flat<D: Desk>(
    alloc: Global,
    grid: &Grid<P2>,
    desk: &mut D,
    shelf: &mut Shelf,
) -> Result<Judgement, CheckFault>
    requires { (D.state desk.old).begun Report ≡ true }
    ensures checked { HasChecked (subject_of grid.now (rules_on means shelf.old))
        ((D.state desk.old).left Report) (D.state desk.old) (D.state desk.new) result }
    ensures reads { OnlyReadsAt Report (D.state desk.old) (D.state desk.new) }
    ensures shelf { rules_on means shelf.new ≡ rules_on means shelf.old }
{
    check::<P2, Flat, D>(alloc, grid, desk, shelf)
}

/// Checks the report of a volume: whether the file that was begun at `Place::Report` holds of it,
/// where the rules are those on the shelf.
///
/// All that is said of `check_flat` holds here too.
pub fn check_solid<D: Desk>(
    alloc: Global,
    grid: &Grid<P3>,
    desk: &mut D,
    shelf: &mut Shelf,
) -> Result<Judgement, CheckFault>
    requires { (D.state desk.old).begun Report ≡ true }
    ensures checked { HasChecked (subject_of grid.now (rules_on means shelf.old))
        ((D.state desk.old).left Report) (D.state desk.old) (D.state desk.new) result }
    ensures reads { OnlyReadsAt Report (D.state desk.old) (D.state desk.new) }
    ensures shelf { rules_on means shelf.new ≡ rules_on means shelf.old }
{
    check::<P3, Solid, D>(alloc, grid, desk, shelf)
}
