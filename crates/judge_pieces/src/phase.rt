//! What has come of a report: no line, its heading, or all of it.
//! Which line is good then belongs elsewhere.
ghost use Rattle.std.specs.Prelude.{◌≡◌};
ghost use Rattle.judge_pieces.specs.LineOf.{line_of};
ghost use Rattle.judge_pieces.specs.Judged.{phase_after};

use crate::line::PieceLine;

/// What has come of a report.
#[derive(Clone, Copy)]
pub enum Phase {
    /// No line.
    Opening,
    /// The sides of the picture, and lines that list splits of contours.
    Listing,
    /// All lines.
    Ended,
}

/// What has come once this line was good.
pub fn phase_after(line: &PieceLine) -> Phase
    ensures { result ≡ phase_after (line_of line.now) }
{
    match line {
        PieceLine::End => Phase::Ended,
        _ => Phase::Listing,
    }
}
