//! What is told of the verdict on a run of points: each verdict is judged by `shape_refute`, which knows nothing of how it is found.
ghost use Rattle.std.specs.Prelude.{◌<◌, ◌≤◌, ◌∷◌, [], All, IsTrue, IsSome, IfSome, length, map};
ghost use Rattle.shape_terms.specs.Limits.{most_flat};
ghost use Rattle.shape_terms.specs.Points.{in_box};
ghost use Rattle.shape_refute.specs.Terms.{flat_point};
ghost use Rattle.shape_refute.specs.PairTerms.{IsSmall};
ghost use Rattle.shape_line.specs.Runs.{AreInside, AreNear};
ghost use Rattle.shape_line.specs.Verdict.{IsVerdict, IsHeld};

use crate::close::is_close;
use crate::numbers::{number, points};
use shape_line::{RunVerdict, bounds_of, decide_run};
use shape_refute::{Bounds, Naive, Refutation, holds, is_least, is_proper, refutes, turns};
use shape_space::{MOST_FLAT, P2, Sides};
use std::alloc::Global;
use std::io;

// Whether a point lies in the box of the greatest flat sides.
fn is_inside(p: P2) -> bool
    ensures { IsTrue result → IsTrue (in_box (most_flat ∷ most_flat ∷ []) (flat_point p)) }
{
    match Sides::try_new(P2 {
        x: MOST_FLAT,
        y: MOST_FLAT,
    }) {
        Some(sides) => sides.inside(p),
        None => false,
    }
}

// Whether points lie in that box.
fn are_inside(points: &[P2]) -> bool
    ensures { IsTrue result → AreInside (map flat_point points.now) }
{
    for i in 0..points.len() {
        if !is_inside(points[i]) {
            return false;
        }
    }
    true
}

// Whether each point is close to the next.
fn are_near(points: &[P2]) -> bool
    ensures { IsTrue result → AreNear (map flat_point points.now) }
{
    for i in 0..points.len().saturating_sub(1) {
        if !is_close(points[i], points[i + 1]) {
            return false;
        }
    }
    true
}

// The verdict on points, where they are a run inside the box of the greatest flat sides.
fn decided(points: &[P2], axis: usize) -> Option<RunVerdict>
    requires axis { axis < 2 }
    ensures verdict { IfSome result (λ v. IsVerdict axis (map flat_point points.now) v) }
    ensures some { IsSome result → 1 ≤ length points.now }
    ensures small { IsSome result → All IsSmall points.now }
    ensures near { IsSome result → AreNear (map flat_point points.now) }
{
    if points.is_empty() || points.len() > 100 || !are_inside(points) || !are_near(points) {
        return None;
    }
    Some(decide_run(points, axis))
}

// Whether the pairs of places that are found show the line of a straight run to be least, and whether its first place alone does.
fn shown(run: &[P2], axis: usize, line: &Naive) -> (bool, bool)
    requires axis { axis < 2 }
    requires held { IsHeld axis (map flat_point run.now) line.now }
    requires some { 1 ≤ length run.now }
    requires small { All IsSmall run.now }
    requires near { AreNear (map flat_point run.now) }
{
    let found = bounds_of(run, line);
    let first = Bounds {
        low1: 0,
        high1: 0,
        low2: 0,
        high2: 0,
    };
    (is_least(run, line, &found), is_least(run, line, &first))
}

// Whether the line is proper and holds each point of the run.
fn holds_all(line: &Naive, run: &[P2]) -> bool {
    for p in run {
        if !holds(line, *p) {
            return false;
        }
    }
    is_proper::<P2>(line)
}

// What is told of weights that refuse a run: whether they refute it, and the run without its last point, and how many are those of steps.
fn weights_told(alloc: Global, run: &[P2], axis: usize, why: &Refutation) -> io::Result<String>
    requires { axis < 2 }
{
    let is_refuted = refutes(run, axis, why);
    let front = &run[..run.len().saturating_sub(1)];
    let steps = why.steps.len();
    Ok(format!(in alloc;
        "refused {is_refuted}, but its front {}, {steps} steps",
        refutes(front, axis, why)
    )?)
}

/// What kind of verdict is found on a run, and whether its evidence is good. An axis is told, and then the points.
pub(crate) fn tell_run(alloc: Global, numbers: &[i64]) -> io::Result<String> {
    let axis = usize::from(number(numbers, 0) != 0);
    let run = points(alloc, numbers, 1)?;
    match decided(&run, axis) {
        Some(RunVerdict::Straight(line)) => {
            let (found, first) = shown(&run, axis, &line);
            let holds = holds_all(&line, &run);
            Ok(format!(in alloc;
                "straight, axis {}, held {holds}, least {found}, by its first place {first}",
                line.axis
            )?)
        }
        Some(RunVerdict::Turned(turn)) => {
            Ok(format!(in alloc; "turned {}", turns(&run, axis, &turn))?)
        }
        Some(RunVerdict::Refused(why)) => weights_told(alloc, &run, axis, &why),
        None => Ok(String::from_str(alloc, "no run")?),
    }
}

/// The coefficients of the line that is found of a straight run, and its bound. An axis is told, and then the points.
pub(crate) fn tell_terms(alloc: Global, numbers: &[i64]) -> io::Result<String> {
    let axis = usize::from(number(numbers, 0) != 0);
    let run = points(alloc, numbers, 1)?;
    match decided(&run, axis) {
        Some(RunVerdict::Straight(line)) => {
            let (x, y, z) = (line.a[0], line.a[1], line.a[2]);
            Ok(format!(in alloc; "{x} {y} {z} {}", line.mu)?)
        }
        _ => Ok(String::from_str(alloc, "no line")?),
    }
}
