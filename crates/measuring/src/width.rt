//! The least width of a polygon over the directions of its sides.
//! Widths are compared as fractions of whole numbers: a square of a turn by the square of a length.
ghost use Rattle.std.specs.Prelude.{◌≡◌, ◌<◌, ◌≤◌, ◌^◌, unsigned_abs, length};
ghost use Rattle.measure_terms.specs.Hulls.{turn, vertex, end};
ghost use Rattle.measure_terms.specs.Polygons.{squared_length};
ghost use Rattle.measure_terms.specs.Widths.{HaveLengths, IsReach, IsOfSide, IsLeastSide};
ghost use Rattle.measuring.specs.Corners.{corners, AreShort};
ghost use Rattle.measuring.specs.Narrower.{width_told, IsFarther, IsNarrower};

use crate::corner::{end, vertex};
use crate::short::{is_less, short_length, short_turn};
use shape_space::P2;

/// How wide a polygon is across one of its sides: the width is `across` by the root of `length`.
#[derive(Clone, Copy)]
pub(crate) struct Width {
    /// The place of the side's first vertex.
    pub(crate) side: usize,
    /// Twice the area of the greatest triangle on the side.
    pub(crate) across: i64,
    /// The square of the side's length.
    pub(crate) length: i64,
}

// The turn from a side to a vertex.
fn turn_to(round: &[P2], i: usize, k: usize) -> i64
    requires i { i < length round.now }
    requires k { k < length round.now }
    requires short { AreShort (corners round.now) }
    ensures value { result ≡ turn (vertex (corners round.now) i) (end (corners round.now) i)
        (vertex (corners round.now) k) }
    ensures small { unsigned_abs result ≤ 2 ^ 35 }
{
    short_turn(vertex(round, i), end(round, i), vertex(round, k))
}

// The vertex that lies farther from a side, and the first where both lie as far.
fn farther(round: &[P2], i: usize, far: usize, k: usize) -> usize
    requires i { i < length round.now }
    requires far { far < length round.now }
    requires k { k < length round.now }
    requires short { AreShort (corners round.now) }
    ensures { IsFarther (corners round.now) i far k result }
{
    if turn_to(round, i, far) < turn_to(round, i, k) {
        k
    } else {
        far
    }
}

// The place of the first vertex to which the turn from a side is greatest.
fn farthest(round: &[P2], i: usize) -> usize
    requires i { i < length round.now }
    requires short { AreShort (corners round.now) }
    ensures { IsReach (corners round.now) i (length round.now) result }
{
    let mut far = 0;
    for k in 1..round.len() {
        far = farther(round, i, far, k);
    }
    far
}

// The square of the length of a side.
fn length_of(round: &[P2], i: usize) -> i64
    requires i { i < length round.now }
    requires short { AreShort (corners round.now) }
    ensures value { result
        ≡ squared_length (vertex (corners round.now) i) (end (corners round.now) i) }
    ensures small { unsigned_abs result ≤ 2 ^ 35 }
{
    short_length(vertex(round, i), end(round, i))
}

// How wide the polygon is across a side.
fn width_of(round: &[P2], i: usize) -> Width
    requires i { i < length round.now }
    requires short { AreShort (corners round.now) }
    ensures is { IsOfSide (corners round.now) (width_told result) }
    ensures side { result.side ≡ i }
    ensures across { unsigned_abs result.across ≤ 2 ^ 35 }
    ensures length { unsigned_abs result.length ≤ 2 ^ 35 }
{
    Width {
        side: i,
        across: turn_to(round, i, farthest(round, i)),
        length: length_of(round, i),
    }
}

// The narrower of two widths, and the first where they are equal.
fn narrower(old: Width, new: Width) -> Width
    requires old_across { unsigned_abs old.across ≤ 2 ^ 35 }
    requires old_length { unsigned_abs old.length ≤ 2 ^ 35 }
    requires new_across { unsigned_abs new.across ≤ 2 ^ 35 }
    requires new_length { unsigned_abs new.length ≤ 2 ^ 35 }
    ensures narrower { IsNarrower (width_told old) (width_told new) (width_told result) }
    ensures across { unsigned_abs result.across ≤ 2 ^ 35 }
    ensures length { unsigned_abs result.length ≤ 2 ^ 35 }
{
    if is_less(new.across, new.length, old.across, old.length) {
        new
    } else {
        old
    }
}

/// The least width of a polygon across its sides, and the first side that has it.
pub(crate) fn least_width(round: &[P2]) -> Width
    requires some { 1 ≤ length round.now }
    requires short { AreShort (corners round.now) }
    requires lengths { HaveLengths (corners round.now) }
    ensures least { IsLeastSide (corners round.now) (length round.now) (width_told result) }
    ensures across { unsigned_abs result.across ≤ 2 ^ 35 }
    ensures length { unsigned_abs result.length ≤ 2 ^ 35 }
{
    let mut least = width_of(round, 0);
    for i in 1..round.len() {
        least = narrower(least, width_of(round, i));
    }
    least
}
