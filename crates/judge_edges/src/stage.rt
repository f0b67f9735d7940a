//! How far an edge report has come: before its first line, among the lines of cycles, or behind its end.
//! Which line is good there is told in `whole`.
ghost use Rattle.std.specs.Prelude.{◌≡◌, ◌↔◌, IsTrue};
ghost use Rattle.judge_edges.specs.LineOf.{line_of};
ghost use Rattle.judge_edges.specs.Taken.{stage_behind, GivesSides};

use crate::line::EdgeLine;

// How far a report has come.
#[derive(Clone, Copy)]
pub(crate) enum Stage {
    // no line came
    Opening,
    // the lines of cycles come
    Open,
    // the end came
    Ended,
}

// Whether a line gives the sides of the picture.
pub(crate) fn gives_sides(line: &EdgeLine, width: u32, height: u32) -> bool
    ensures { IsTrue result ↔ GivesSides width height (line_of line.now) }
{
    match line {
        EdgeLine::Edges {
            width: w,
            height: h,
        } => *w == width && *h == height,
        _ => false,
    }
}

// The stage behind a line of cycles.
pub(crate) fn stage_behind(line: &EdgeLine) -> Stage
    ensures { result ≡ stage_behind (line_of line.now) }
{
    match line {
        EdgeLine::End => Stage::Ended,
        _ => Stage::Open,
    }
}
