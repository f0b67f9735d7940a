//! The lines of the kinds of reports that are drawn over an object.
//! A further kind is one more `impl`.
ghost use Rattle.std.specs.Prelude.{◌≡◌, ◌∷◌, [], refl};
ghost use Rattle.shape_space.specs.declared.point.P2.{P2};
ghost use Rattle.draw_report.specs.Parts as Parts;
ghost use Rattle.draw_report.specs.Kinds.{ball_part, piece_part, edge_part};
ghost use Rattle.draw_report.specs.Seen.{part_of};
ghost use Rattle.draw_report.specs.Ends.{only_ball_end, only_piece_end, only_edge_end};

use crate::part::{Mark, Part};
use judge_balls::BallLine;
use judge_edges::EdgeLine;
use judge_pieces::PieceLine;
use report_text::ReportLine;
use shape_space::P2;

/// A line of a report that is drawn over an object.
pub trait OverLine: ReportLine {
    /// What the line gives.
    ghost gives: { Self.Seen → Parts.Part };

    /// What the line gives.
    fn part(&self) -> Part
        ensures { part_of result ≡ gives (Self.seen self.now) };

    ghost last_ends: { gives Self.last ≡ Parts.Part.End };

    ghost only_last: { (l : Self.Seen) → gives l ≡ Parts.Part.End → l ≡ Self.last };
}

// A heading with these sides.
fn heading(sides: P2) -> Part
    ensures { part_of result ≡ Parts.Part.Heading (sides.x ∷ sides.y ∷ []) }
{
    Part::Heading {
        width: i64::from(sides.x),
        height: i64::from(sides.y),
    }
}

impl OverLine for BallLine<P2> {
    ghost gives = { ball_part };

    fn part(&self) -> Part {
        match *self {
            BallLine::Balls { sides, number: _ } => heading(sides),
            BallLine::Ball { ball } => Part::Gives(Mark::Ball {
                centre: ball.centre,
                square: ball.s,
            }),
            BallLine::End => Part::End,
        }
    }

    ghost last_ends = { refl };

    ghost only_last = { only_ball_end };
}

impl OverLine for PieceLine {
    ghost gives = { piece_part };

    fn part(&self) -> Part {
        match self {
            PieceLine::Pieces { sides } => heading(*sides),
            PieceLine::Chain { .. } => Part::Gives(Mark::Border),
            PieceLine::Piece { first, last, .. } => Part::Gives(Mark::Along {
                first: *first,
                last: *last,
            }),
            PieceLine::Gap { .. } => Part::Quiet,
            PieceLine::End => Part::End,
        }
    }

    ghost last_ends = { refl };

    ghost only_last = { only_piece_end };
}

impl OverLine for EdgeLine {
    ghost gives = { edge_part };

    fn part(&self) -> Part {
        match self {
            EdgeLine::Edges { width, height } => Part::Heading {
                width: i64::from(*width),
                height: i64::from(*height),
            },
            EdgeLine::Cycle { .. } => Part::Gives(Mark::Border),
            EdgeLine::Arc(arc) => Part::Gives(Mark::Along {
                first: arc.first,
                last: arc.last,
            }),
            EdgeLine::Gap(_) => Part::Quiet,
            EdgeLine::End => Part::End,
        }
    }

    ghost last_ends = { refl };

    ghost only_last = { only_edge_end };
}
