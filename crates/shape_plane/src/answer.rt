//! The slopes that meet all pairs, or the weights that show that none do.
//! The elimination of the slopes stands in the modules that this one calls.
ghost use Rattle.std.specs.Prelude.{◌≡◌, ◌<◌, List, length, map, pos};
ghost use Rattle.shape_plane.specs.Rows.{IsSystem};
ghost use Rattle.shape_plane.specs.Ranges.{HasWhole};
ghost use Rattle.shape_plane.specs.Systems.{rows_for};
ghost use Rattle.shape_plane.specs.Pairs.{ArePairs};
ghost use Rattle.shape_plane.specs.Solutions.{IsSlopesOf};
ghost use Rattle.shape_plane.specs.Solved.{IsFound, solved_by as solved};

use crate::eliminate::{Elimination, Solution, eliminate};
use crate::pair::Pair;
use crate::range::Narrowed;
use crate::row::Row;
use crate::weights::put_weights;
use shape_refute::Refutation;
use shape_space::Point;

/// The coefficients of lines or planes of an axis, which leave open where they lie. Those past the last axis are 0.
#[derive(Clone, Copy, Debug, PartialEq, Eq)]
pub struct Slopes {
    /// The coefficients of x, y and z.
    pub a: [i64; 3],
}

/// Slopes, or weights that refute all of them.
#[derive(Clone, Copy)]
pub enum Solved {
    /// These meet every pair.
    Slopes(Slopes),
    /// No proper slopes of the axis meet the pairs; the weights are of their places alone.
    Clash(Refutation),
}

// The second slope, where the space has it.
fn third<P: Point>(b: i64) -> i64
    ensures solid { P.DIM ≡ 3 → result ≡ b }
    ensures flat { P.DIM ≡ 2 → result ≡ pos 0 }
{
    if P::DIM == 3 { b } else { 0 }
}

// The coefficients of a solution, each on its axis.
fn slopes_of<P: Point>(axis: usize, s: Solution) -> [i64; 3]
    requires { axis < P.DIM }
    ensures { IsSlopesOf P.DIM axis s result }
{
    let b = third::<P>(s.b);
    if axis == 0 {
        [s.c, s.a, b]
    } else if axis == 1 {
        [s.a, s.c, b]
    } else {
        [s.a, b, s.c]
    }
}

/// The slopes that meet rows of pairs, where the first slopes that they leave are known; none where the weights put into `why` refute all.
pub fn find_slopes<P: Point>(
    rows: &[Row],
    axis: usize,
    first: Narrowed,
    why: &mut Refutation,
) -> Option<Slopes>
    requires axis { axis < P.DIM }
    requires system { IsSystem rows.now }
    requires whole { HasWhole rows.now (length rows.now) first }
    ensures { (points : List P) (pairs : List Pair) → ArePairs (length points) pairs
        → rows.now ≡ rows_for axis (map P.coords points) pairs
        → IsFound P.DIM axis (map P.coords points) pairs result why.new }
{
    match eliminate(rows, first) {
        Elimination::Slopes(s) => Some(Slopes {
            a: slopes_of::<P>(axis, s),
        }),
        Elimination::Clash(k) => {
            put_weights(why, rows, k);
            None
        }
    }
}

/// The answer with its slopes or its weights.
pub fn solved_by(slopes: Option<Slopes>, why: Refutation) -> Solved
    ensures { result ≡ solved slopes why }
{
    match slopes {
        Some(s) => Solved::Slopes(s),
        None => Solved::Clash(why),
    }
}
