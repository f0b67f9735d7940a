//! The judge of ball reports: where a report stands, and whether the next line is good there.
//! A further kind of line is a method here and an arm of `next`; the judge of the balls themselves stands in `judge`.
ghost use Rattle.std.specs.Prelude.{◌≡◌, ◌↔◌, ◌≤◌, ◌^◌, ◌+◌, [], IsTrue, IfOk};
ghost use Rattle.ball_terms.specs.Lines as Terms;
ghost use Rattle.shape_terms.specs.Pictures.{Picture};
ghost use Rattle.ball_terms.specs.Reports.{Standing, HasEnded};

use crate::judge::BallJudge;
use crate::line::{Ball, BallLine};
use report_text::ReportJudge;
use shape_grid::Grid;
use shape_space::{NoMemory, Point};
use std::alloc::Global;

// Where a report stands.
#[derive(Clone, Copy)]
pub(crate) enum State {
    // No line came.
    Opening,
    // So many balls are still to come.
    Listing { left: u32 },
    // The end came.
    Ended,
}

/// A judge of the ball reports of one picture: it takes their lines as they come, and keeps no line.
#[derive(Drop)]
pub(crate) struct BallReportJudge<P: Point> {
    balls: BallJudge<P>,
    state: State,
}

impl<P: Point> BallReportJudge<P> {
    ghost use Rattle.shape_terms.specs.Limits.{most_points};
    ghost use Rattle.judge_balls.specs.LineOf.{ball_of, line_of};
    ghost use Rattle.judge_balls.specs.Course.{StandsFor, Fits, JudgesLine, room_at};

    /// A judge that has taken no line. It takes all its memory here.
    pub(crate) fn new(alloc: Global, grid: &Grid<P>) -> Result<BallReportJudge<P>, NoMemory>
        ensures stands { IfOk result (λ j. StandsFor grid.now j []) }
        ensures room { IfOk result (λ j. room_at j.state j.balls ≤ most_points + 3) }
    {
        let balls = BallJudge::new(alloc, grid)?;
        Ok(BallReportJudge {
            balls,
            state: State::Opening,
        })
    }

    // Takes a `balls` line.
    fn begin(&mut self, sides: P, number: u32) -> bool
        ensures { JudgesLine (Terms.Line.Balls (P.coords sides) number) self.old self.new result }
    {
        match self.state {
            State::Opening => {
                if !self.balls.begins(sides, number) {
                    return false;
                }
                self.state = State::Listing { left: number };
                true
            }
            State::Listing { .. } => false,
            State::Ended => false,
        }
    }

    // Takes a `ball` line.
    fn list(&mut self, ball: Ball<P>) -> bool
        ensures { JudgesLine (Terms.Line.Ball (ball_of P.coords ball)) self.old self.new result }
    {
        match self.state {
            State::Opening => false,
            State::Listing { left } => {
                if left == 0 {
                    return false;
                }
                if !self.balls.ball(ball.centre, ball.near, ball.s, ball.own) {
                    return false;
                }
                self.state = State::Listing { left: left - 1 };
                true
            }
            State::Ended => false,
        }
    }

    // Takes an `end` line.
    fn end(&mut self) -> bool
        ensures { JudgesLine Terms.Line.End self.old self.new result }
    {
        match self.state {
            State::Opening => false,
            State::Listing { left } => {
                if left > 0 {
                    return false;
                }
                if !self.balls.done() {
                    return false;
                }
                self.state = State::Ended;
                true
            }
            State::Ended => false,
        }
    }

    // Takes the next line.
    fn next(&mut self, line: &BallLine<P>) -> bool
        ensures { JudgesLine (line_of P.coords line.now) self.old self.new result }
    {
        match *line {
            BallLine::Balls { sides, number } => self.begin(sides, number),
            BallLine::Ball { ball } => self.list(ball),
            BallLine::End => self.end(),
        }
    }

    // Whether the end came.
    fn is_closed(&self) -> bool
        ensures { (X : Picture) (s : Standing) → Fits X self.now.state self.now.balls s
            → (IsTrue result ↔ HasEnded s) }
    {
        matches!(self.state, State::Ended)
    }
}

impl<P: Point> ReportJudge<BallLine<P>> for BallReportJudge<P> {
    ghost use Rattle.ball_terms.specs.Reports.{ball_report};
    ghost use Rattle.ball_terms.proofs.CourseLaws.{is_report};
    ghost use Rattle.judge_balls.specs.Course.{StandsFor, room_at};

    ghost About = { Picture };

    ghost good = { λ X. (ball_report X).GoodAfter };

    ghost stands = { StandsFor };

    ghost room = { λ j. room_at j.state j.balls };

    fn take(&mut self, line: &BallLine<P>) -> Result<bool, NoMemory> {
        Ok(self.next(line))
    }

    fn has_ended(&self) -> bool {
        self.is_closed()
    }

    ghost ends = { λ X. is_report X (Terms.spelled P.DIM) };
}
