//! Corners of pixels, kept as points of the plane, and the sides of a round of them.
//! What a corner stands for is told in `specs/Corners.antt`.
ghost use Rattle.std.specs.Prelude.{◌≡◌, ◌<◌, length};
ghost use Rattle.measure_terms.specs.Hulls.{vertex, next, end};
ghost use Rattle.measuring.specs.Corners.{corner, corners, IsShort, AreShort};

use shape_space::P2;

// The corner with a place.
fn read(round: &[P2], i: usize) -> P2
    requires { i < length round.now }
    ensures { corner result ≡ vertex (corners round.now) i }
{
    round[i]
}

/// The corner with a place, which lies in a box where all do.
pub(crate) fn vertex(round: &[P2], i: usize) -> P2
    requires { i < length round.now }
    ensures is { corner result ≡ vertex (corners round.now) i }
    ensures short { AreShort (corners round.now) → IsShort (corner result) }
{
    read(round, i)
}

// The place behind a place of a round.
fn next_place(count: usize, i: usize) -> usize
    requires { i < count }
    ensures value { result ≡ next count i }
    ensures within { result < count }
{
    if i + 1 == count { 0 } else { i + 1 }
}

/// The corner behind the one with a place: where the side that begins there ends.
pub(crate) fn end(round: &[P2], i: usize) -> P2
    requires { i < length round.now }
    ensures is { corner result ≡ end (corners round.now) i }
    ensures short { AreShort (corners round.now) → IsShort (corner result) }
{
    vertex(round, next_place(round.len(), i))
}
