//! A ball of the picture, drawn.
//! In which order its parts are drawn is said here and in `specs/Balls.antt`.
ghost use Rattle.std.specs.Prelude.{◌≡◌, ◌+◌, ◌-◌, ◌/◌, ◌≤◌, pos};
ghost use Rattle.shape_terms.specs.Limits.{most_flat};
ghost use Rattle.shape_terms.specs.FramedBox.{IsWithin};
ghost use Rattle.shape_grid.specs.Balls.{drawn_state, ball_centre, ball_radius};

use crate::draws::Draws;
use shape_space::Point;

/// A ball, and whether the points that it covers become object or background.
#[derive(Drop)]
pub struct Ball<P: Point> {
    /// The centre, a point of the box.
    pub centre: P,
    /// The radius.
    pub radius: u32,
    /// Whether the points that it covers become object.
    pub object: bool,
    pub ghost near: { IsWithin (pos 0) (pos (most_flat - 1)) (P.coords centre) },
    pub ghost small: { radius ≤ most_flat / 4 + 1 },
}

// The next centre: one draw for each axis, x first.
fn drawn_centre<P: Point>(draws: &mut Draws, side: u32) -> P
    requires some { 1 ≤ side }
    requires most { side ≤ most_flat }
    ensures centre { P.coords result ≡ ball_centre P.DIM side draws.old.state 0 }
    ensures state { draws.new.state ≡ drawn_state draws.old.state P.DIM }
{
    let mut centre = P::origin();
    for k in 0..P::DIM {
        centre = centre.with(k, (draws.next() % side) as i32);
    }
    centre
}

/// The next ball of a picture whose sides are all `side`: first its centre is drawn, then its radius.
pub fn drawn_ball<P: Point>(draws: &mut Draws, side: u32, object: bool) -> Ball<P>
    requires some { 1 ≤ side }
    requires most { side ≤ most_flat }
    ensures centre { P.coords result.centre ≡ ball_centre P.DIM side draws.old.state 0 }
    ensures radius { result.radius ≡ ball_radius P.DIM side draws.old.state 0 }
    ensures object { result.object ≡ object }
    ensures state { draws.new.state ≡ drawn_state draws.old.state (P.DIM + 1) }
{
    let centre = drawn_centre(draws, side);
    let radius = 1 + draws.next() % (1 + side / 4);
    Ball {
        centre,
        radius,
        object,
    }
}
