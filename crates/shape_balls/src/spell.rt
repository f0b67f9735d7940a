//! The text of the lines that list balls.
//! How one line is spelled is known to the lines themselves.
ghost use Rattle.std.specs.Prelude.{◌≡◌, ◌<◌, ◌^◌, IfOk, All, length, map};
ghost use Rattle.text_terms.specs.Spellings.{text_of};
ghost use Rattle.text_terms.specs.Fields.{point};
ghost use Rattle.ball_terms.specs.Lines as Terms;
ghost use Rattle.ball_terms.specs.Shows.{listing};
ghost use Rattle.judge_balls.specs.LineOf.{ball_of};

use judge_balls::{Ball, BallLine};
use report_text::Report;
use shape_space::{NoMemory, Point};
use std::alloc::Global;

/// Spells the lines that list these balls of a picture with these sides.
pub fn spell<P: Point>(alloc: Global, sides: P, balls: &Vec<Ball<P>>) -> Result<Report, NoMemory>
    requires few { length balls.now.items < 2 ^ 32 }
    requires sides { (point P.DIM).InRange (P.coords sides) }
    requires fits { All (λ b. (Terms.spelled P.DIM).IsLine (Terms.Line.Ball (ball_of P.coords b)))
        balls.now.items }
    ensures { IfOk result (λ text. text ≡ text_of (Terms.spelled P.DIM)
        (listing (P.coords sides) (map (ball_of P.coords) balls.now.items))) }
{
    let mut report = Report::new(alloc);
    let number = balls.len() as u32;
    report.add(&BallLine::Balls { sides, number })?;
    for ball in balls {
        report.add(&BallLine::Ball { ball: *ball })?;
    }
    let end: BallLine<P> = BallLine::End;
    report.add(&end)?;
    Ok(report)
}
