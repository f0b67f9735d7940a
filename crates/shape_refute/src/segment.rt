//! Whether a naive line holds a run of flat points along which the other coordinate goes one way.
//! Which places of a contour such a run goes from and to belongs elsewhere.
ghost use Rattle.std.specs.Prelude.{◌<◌, ◌^◌, ◌↔◌, IsTrue, map, length};
ghost use Rattle.std.specs.Bool.{OnTrue};
ghost use Rattle.shape_terms.specs.Naive.{HoldsAll, IsNaiveFor};
ghost use Rattle.shape_terms.specs.Straight.{KeepsSense};
ghost use Rattle.shape_refute.specs.Terms.{naive_of, flat_point};

use crate::naive::{Naive, holds, is_proper};
use crate::turn::{Turn, turns};
use shape_space::P2;

// Whether the line holds each point.
fn holds_all(run: &[P2], line: &Naive) -> bool
    ensures { IsTrue result
        ↔ HoldsAll line.now.axis (naive_of 2 line.now) (map flat_point run.now) }
{
    for i in 0..run.len() {
        if !holds(line, run[i]) {
            return false;
        }
    }
    true
}

// Whether the other coordinate changes by 1 at each place, or by -1 at each: no place makes a turn with the first.
fn keeps_sense(run: &[P2], axis: usize) -> bool
    requires axis { axis < 2 }
    requires few { length run.now < 2 ^ 32 }
    ensures { IsTrue result ↔ KeepsSense axis (map flat_point run.now) }
{
    for j in 1..run.len() as u32 {
        let turn = Turn { i: 0, j: j - 1 };
        if turns(run, axis, &turn) {
            return false;
        }
    }
    true
}

/// Whether a line is a proper one of an axis of the plane that holds the run, along which the other coordinate keeps its sense.
pub fn holds_segment(run: &[P2], line: &Naive) -> bool
    requires few { length run.now < 2 ^ 32 }
    ensures held { IsTrue result ↔ (IsNaiveFor line.now.axis (map flat_point run.now)
        (naive_of 2 line.now) × KeepsSense line.now.axis (map flat_point run.now)) }
    ensures axis { OnTrue result (line.now.axis < 2) }
{
    if line.axis > 1 || !is_proper::<P2>(line) {
        return false;
    }
    holds_all(run, line) && keeps_sense(run, line.axis as usize)
}
