//! Points that follow each other in a row are put as one piece.
ghost use Rattle.std.specs.Prelude.{◌≡◌, ◌≤◌, ◌<◌, ◌∷◌, ◌++◌, length, drop, OnOk};
ghost use Rattle.drawing.specs.Seen.{flat, flats};
ghost use Rattle.drawing.specs.Runs.{is_next, runs, BeginsWithRun};
ghost use Rattle.drawing.specs.Svg.{runs_text};

use crate::svg::Svg;
use shape_space::{NoMemory, P2};

// Whether q lies one step to the right of p.
fn is_next(p: P2, q: P2) -> bool
    ensures { result ≡ is_next (flat p) (flat q) }
{
    i64::from(q.x) == i64::from(p.x) + 1 && q.y == p.y
}

// The number of points in the run at the front.
fn run_len(points: &[P2]) -> usize
    requires { 0 < length points.now }
    ensures run { BeginsWithRun (flats points.now) result }
    ensures some { 0 < result }
    ensures within { result ≤ length points.now }
{
    for i in 1..points.len() {
        if !is_next(points[i - 1], points[i]) {
            return i;
        }
    }
    points.len()
}

/// Puts the runs of the points.
pub fn put_runs(points: &[P2], svg: &mut Svg) -> Result<(), NoMemory>
    ensures { OnOk result (svg.new ≡ svg.old ++ runs_text (flats points.now)) }
{
    let mut at = 0;
    while at < points.len() {
        let count = run_len(&points[at..]);
        svg.run(points[at], count)?;
        at += count;
    }
    Ok(())
}
