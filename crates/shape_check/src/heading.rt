//! The first line of a report: it gives the number of the report and the sides of the picture, and names a rule on the shelf.
//! What a rule does is no matter here.
ghost use Rattle.std.specs.Prelude.{◌≡◌, ◌<◌, true, length, MatchOption, IfSome, IfOk};
ghost use Rattle.shape_desk.specs.Desk.{OnlyReadsAt};
ghost use Rattle.shape_desk.specs.Line.{ahead_of, TakenAhead};
ghost use Rattle.shape_desk.specs.declared.desk.Place.TheVariants.{Report};
ghost use Rattle.shape_terms.specs.Shelves.{names_of};
ghost use Rattle.shape_report.specs.LineOf.{line_of};
ghost use Rattle.shape_check.specs.Heading.{IsHeading, IsNoHeading, HeadingAnswer};

use report_text::{CheckFault, Next, next_line};
use shape_desk::{Desk, LineReader};
use shape_report::Line;
use shape_rules::Shelf;
use shape_space::{Point, Sides};

/// What a heading gives: the number of the report, and that of the entry of the shelf that it names.
#[derive(Clone, Copy)]
pub struct Given {
    /// The number of the report.
    pub number: u8,
    /// The number of the entry.
    pub entry: usize,
}

// What the line gives, where it is the heading of a report of a picture with these sides.
fn given_by<P: Point>(sides: Sides<P>, shelf: &Shelf, line: &Line<P>) -> Option<Given>
    ensures names { MatchOption result
        (IsNoHeading (P.coords sides.lengths) (names_of shelf.now) (line_of P.coords line.now))
        (IsHeading (P.coords sides.lengths) (names_of shelf.now) (line_of P.coords line.now)) }
    ensures there { IfSome result (λ g. g.entry < length shelf.now) }
{
    match line {
        Line::Shape {
            number,
            sides: given,
            rule,
        } => {
            if *given != sides.lengths {
                return None;
            }
            let entry = shelf.find(rule)?;
            Some(Given {
                number: *number,
                entry,
            })
        }
        _ => None,
    }
}

/// Takes the first line of the report, and answers what it gives; None where it is no heading of a picture with these sides.
pub(crate) fn find_heading<P: Point, D: Desk>(
    sides: Sides<P>,
    shelf: &Shelf,
    reader: &mut LineReader,
    desk: &mut D,
) -> Result<Option<Given>, CheckFault>
    requires { (D.state desk.old).begun Report ≡ true }
    ensures answer { HeadingAnswer P.DIM (P.coords sides.lengths) (names_of shelf.now)
        (ahead_of reader.old.ahead ((D.state desk.old).left Report))
        (ahead_of reader.new.ahead ((D.state desk.new).left Report))
        (D.state desk.old).read_faults (D.state desk.new).read_faults result }
    ensures there { IfOk result (λ o. IfSome o (λ g. g.entry < length shelf.now)) }
    ensures taken { TakenAhead (ahead_of reader.old.ahead ((D.state desk.old).left Report))
        ((D.state desk.new).left Report) }
    ensures reads { OnlyReadsAt Report (D.state desk.old) (D.state desk.new) }
{
    let mut line = Line::End;
    match next_line(reader, desk, &mut line)? {
        Next::Line => Ok(given_by(sides, shelf, &line)),
        Next::Bad | Next::End => Ok(None),
    }
}
