//! The kinds of reports that are drawn over an object, and which of them a heading is of.
//! A further kind is a variant here, a clause of `lines_of`, and a case of `kind_of`.
ghost use Rattle.std.specs.Prelude.{◌≡◌, ◌↔◌, IsTrue};
ghost use Rattle.draw_report.specs.Parts as Parts;
ghost use Rattle.draw_report.specs.Parts.{kind_by};
ghost use Rattle.draw_report.specs.Seen.{part_of};
ghost use Rattle.draw_report.specs.Headings.{IsHeadingLine, KindFound};
ghost use Rattle.drawing.specs.Seen.{flat};

use crate::over_line::OverLine;
use crate::part::Part;
use judge_balls::BallLine;
use judge_edges::EdgeLine;
use judge_pieces::PieceLine;
use shape_space::P2;

/// A kind of report that is drawn over an object.
#[derive(Clone, Copy, Debug, PartialEq, Eq)]
pub enum Kind {
    /// The object as a union of balls.
    Balls,
    /// The contours in straight pieces.
    Pieces,
    /// The standard segments of the borders along cracks.
    Edges,
}

// Whether what a line gives is the heading with these sides.
fn gives_sides(part: Part, sides: P2) -> bool
    ensures { IsTrue result ↔ (part_of part ≡ Parts.Part.Heading (flat sides)) }
{
    match part {
        Part::Heading { width, height } => {
            width == i64::from(sides.x) && height == i64::from(sides.y)
        }
        _ => false,
    }
}

// Whether the bytes of a line are the heading of a kind with these sides.
fn is_heading<L: OverLine>(bytes: &[u8], sides: P2) -> bool
    ensures { IsTrue result
        ↔ IsHeadingLine (kind_by L.form L.last L.gives) (flat sides) bytes.now }
{
    match L::read(bytes) {
        Some(line) => gives_sides(line.part(), sides),
        None => false,
    }
}

/// The kind that the bytes of a line are the heading of, with these sides.
pub(crate) fn kind_of(bytes: &[u8], sides: P2) -> Option<Kind>
    ensures { KindFound (flat sides) bytes.now result }
{
    if is_heading::<BallLine<P2>>(bytes, sides) {
        return Some(Kind::Balls);
    }
    if is_heading::<PieceLine>(bytes, sides) {
        return Some(Kind::Pieces);
    }
    if is_heading::<EdgeLine>(bytes, sides) {
        return Some(Kind::Edges);
    }
    None
}
