//! The list of the kept balls in raster order, each with its centre as its own point.
//! Which balls are kept stands in `keep`.
ghost use Rattle.std.specs.Prelude.{◌≡◌, ◌<◌, ◌≤◌, ◌^◌, ℕ, IfOk, All, length, map};
ghost use Rattle.shape_terms.specs.Distances.{IsField, IsFramed};
ghost use Rattle.ball_terms.specs.Balls as Terms;
ghost use Rattle.ball_terms.specs.Lines.{Line, spelled};
ghost use Rattle.judge_balls.specs.LineOf.{ball_of};
ghost use Rattle.shape_balls.specs.Keeping.{fact_at, InKept, IsKeeping};

use crate::keep::keep_all;
use judge_balls::Ball;
use shape_dist::{Field, nearest};
use shape_grid::{Bits, Grid};
use shape_space::{NoMemory, Point};
use std::alloc::Global;

// The kept balls, where each object point is in one.
fn listed<P: Point>(
    alloc: Global,
    grid: &Grid<P>,
    field: &Field<P>,
    kept: &Bits,
    covered: &Bits,
) -> Result<Vec<Ball<P>>, NoMemory>
    requires field { IsField grid.now field.now }
    requires framed { All IsFramed field.now }
    requires axes { length grid.now.sides ≡ P.DIM }
    requires keeping { IsKeeping grid.now field.now kept.now covered.now }
    requires all { (i : ℕ) → i < length field.now
        → InKept field.now kept.now (fact_at field.now i).p }
    ensures balls { IfOk result (λ v. Terms.AreBalls grid.now (map (ball_of P.coords) v.items)) }
    ensures fits { IfOk result (λ v. All (λ b. (spelled P.DIM).IsLine (Line.Ball b))
        (map (ball_of P.coords) v.items)) }
    ensures few { IfOk result (λ v. length v.items < 2 ^ 32) }
{
    let mut balls = Vec::new(alloc);
    for i in 0..field.len() {
        if kept.get(i as usize) {
            let f = field.near(i);
            balls.push(Ball {
                centre: f.p,
                near: f.q,
                s: f.s as u64,
                own: f.p,
            })?;
        }
    }
    Ok(balls)
}

/// Balls whose union is the object, by the raster order of their centres: none of them is needless.
pub fn union_of<P: Point>(alloc: Global, grid: &Grid<P>) -> Result<Vec<Ball<P>>, NoMemory>
    requires { length grid.now.sides ≡ P.DIM }
    ensures balls { IfOk result (λ v. Terms.AreBalls grid.now (map (ball_of P.coords) v.items)) }
    ensures fits { IfOk result (λ v. All (λ b. (spelled P.DIM).IsLine (Line.Ball b))
        (map (ball_of P.coords) v.items)) }
    ensures few { IfOk result (λ v. length v.items < 2 ^ 32) }
{
    grid.is_picture();
    let field = nearest(alloc, grid)?;
    let mut kept = Bits::new(alloc, field.len() as usize)?;
    let mut covered = Bits::new(alloc, grid.sides().count() as usize)?;
    keep_all(alloc, &mut kept, &mut covered, grid, &field)?;
    listed(alloc, grid, &field, &kept, &covered)
}
