//! The steps that a run has taken: the signs of those across and of those down, each with the place of the first.
//! What the steps say of lines belongs elsewhere.
ghost use Rattle.std.specs.Prelude.{◌≡◌, ◌+◌, ◌<◌, List, length};
ghost use Rattle.shape_terms.specs.Points.{Point};
ghost use Rattle.shape_terms.specs.Vectors.{difference};
ghost use Rattle.edge_terms.specs.Corners.{IsUnitStep, step_at};
ghost use Rattle.shape_crack.specs.Terms.{point_of};
ghost use Rattle.judge_edges.specs.Ways.{sign_of, IsMeeting, HasSign, vector_of, AreWays, IsNextWays};

use shape_space::P2;

/// A unit step: across or down, by its sign.
#[derive(Clone, Copy)]
pub enum Step {
    /// To the right, or to the left.
    Across(i8),
    /// Downwards, or upwards.
    Down(i8),
}

/// The steps of one kind: their sign, and the place of the first.
#[derive(Clone, Copy)]
pub struct Way {
    pub sign: i8,
    pub place: u32,
}

/// The steps of both kinds, as far as there are any.
#[derive(Clone, Copy)]
pub struct Ways {
    pub across: Option<Way>,
    pub down: Option<Way>,
}

/// The sign of the steps of a kind, and 1 where there is none.
pub fn sign(way: Option<Way>) -> i8
    ensures { result ≡ sign_of way }
{
    match way {
        Some(way) => way.sign,
        None => 1,
    }
}

/// The step from a corner to the next one.
pub fn step_between(from: P2, to: P2) -> Step
    requires { IsUnitStep (point_of from) (point_of to) }
    ensures value { difference (point_of to) (point_of from) ≡ vector_of result }
    ensures sign { HasSign result }
{
    if from.y == to.y {
        Step::Across(if to.x > from.x { 1 } else { -1 })
    } else {
        Step::Down(if to.y > from.y { 1 } else { -1 })
    }
}

// The steps of a kind with one more, at a place; or the place of an opposite one.
fn met(way: Option<Way>, sign: i8, place: u32) -> Result<Way, u32>
    ensures { IsMeeting way sign place result }
{
    match way {
        Some(way) => {
            if way.sign == sign {
                Ok(way)
            } else {
                Err(way.place)
            }
        }
        None => Ok(Way { sign, place }),
    }
}

impl Ways {
    /// No step.
    pub fn none() -> Ways
        ensures across { result.across ≡ None }
        ensures down { result.down ≡ None }
    {
        Ways {
            across: None,
            down: None,
        }
    }

    /// The steps with one more, at a place; or the place of an opposite one.
    pub fn with(self, step: Step, place: u32) -> Result<Ways, u32>
        requires { HasSign step }
        ensures { (run : List Point) → place + 1 < length run → AreWays run place self
            → step_at run place ≡ vector_of step → IsNextWays run place self result }
    {
        match step {
            Step::Across(sign) => {
                let across = met(self.across, sign, place)?;
                Ok(Ways {
                    across: Some(across),
                    down: self.down,
                })
            }
            Step::Down(sign) => {
                let down = met(self.down, sign, place)?;
                Ok(Ways {
                    across: self.across,
                    down: Some(down),
                })
            }
        }
    }
}
