//! A ball report as it was made: its text, and the balls that it lists.
//! How they are found stands in `list`, and how they are spelled in `spell`.
ghost use Rattle.std.specs.Prelude.{◌≡◌, ◌<◌, length, slice_get, Some};
ghost use Rattle.judge_balls.specs.LineOf.{ball_of};

use judge_balls::Ball;
use report_text::Report;
use shape_space::Point;
use std::marker::Model;

/// A ball report: its text, and balls by the raster order of their centres, whose union is the object, and none of which is
/// needless.
#[derive(Drop)]
pub struct BallReport<P: Point> {
    pub(crate) list: Vec<Ball<P>>,
    pub(crate) report: Report,
}

impl<P: Point> Model for BallReport<P> {
    ghost use Rattle.std.specs.Prelude.{◌<◌, ◌^◌, map, length};
    ghost use Rattle.judge_balls.specs.LineOf.{ball_of};
    ghost use Rattle.shape_balls.specs.Listed.{Listed};

    ghost Value = { Listed };

    ghost view = { λ r. record { text = r.report; balls = map (ball_of P.coords) r.list.items } };

    ghost invariant = { λ r. length r.list.items < 2 ^ 32 };
}

impl<P: Point> BallReport<P> {
    /// The number of balls.
    pub fn len(&self) -> u32
        ensures { result ≡ length self.now.balls }
    {
        self.list.len() as u32
    }

    /// The ball with a number, from 0 on.
    pub fn ball(&self, i: u32) -> Ball<P>
        requires { i < length self.now.balls }
        ensures { slice_get self.now.balls i ≡ Some (ball_of P.coords result) }
    {
        self.list[i as usize]
    }

    /// The text, as a report.
    pub fn into_report(self) -> Report
        ensures { result ≡ self.text }
    {
        self.report
    }
}
