//! One side of a hull: a chain of corners that turns one way, and has all corners on that side.
//! The corners come in raster order, or all the other way round.
ghost use Rattle.std.specs.Prelude.{◌≡◌, ◌<◌, ◌+◌, ◌≤◌, ◌↔◌, ℕ, Bool, IsTrue, true, false, length, pos, ◌≤ℤ◌, ◌<ℤ◌, IfOk, OnOk};
ghost use Rattle.measure_terms.specs.Hulls.{turn, vertex};
ghost use Rattle.measuring.specs.Corners.{corner, corners, IsAmong};
ghost use Rattle.measuring.specs.Chains.{IsOpen, IsKept, IsSide};

use crate::corner::vertex;
use crate::turn::turn;
use shape_space::{NoMemory, P2};
use std::alloc::Global;

// Whether two corners are the same.
fn are_same(p: P2, q: P2) -> bool
    ensures { IsTrue result ↔ corner p ≡ corner q }
{
    p.x == q.x && p.y == q.y
}

// Whether the way over the last two of the first `count` corners to a further one does not turn left.
fn bends(chain: &[P2], count: usize, q: P2) -> bool
    requires { count ≤ length chain.now }
    ensures yes { result ≡ true → (j : ℕ) × (j + 2 ≡ count)
        × (turn (vertex (corners chain.now) j) (vertex (corners chain.now) (j + 1)) (corner q)
        ≤ℤ pos 0) }
    ensures no { result ≡ false → (j : ℕ) → j + 2 ≡ count → pos 0
        <ℤ turn (vertex (corners chain.now) j) (vertex (corners chain.now) (j + 1)) (corner q) }
{
    if count < 2 {
        return false;
    }
    if turn(vertex(chain, count - 2), vertex(chain, count - 1), q) <= 0 {
        return true;
    }
    false
}

// How many of the chain of the corners before a place stay when the corner with that place comes.
fn kept(points: &[P2], at: usize, chain: &[P2]) -> usize
    requires { at < length points.now }
    ensures within { result ≤ length chain.now }
    ensures kept { (up : Bool)
        → IsOpen up (IsAmong (corners points.now) at) (vertex (corners chain.now))
        (vertex (corners points.now) at) (length chain.now)
        → IsKept up (IsAmong (corners points.now) at) (vertex (corners chain.now))
        (vertex (corners points.now) at) result }
{
    let q = vertex(points, at);
    let mut count = chain.len();
    while bends(chain, count, q) {
        count -= 1;
    }
    count
}

// Puts the corner with a place to the chain of those before it.
fn put(chain: &mut Vec<P2>, points: &[P2], at: usize) -> Result<(), NoMemory>
    requires place { at < length points.now }
    requires some { 1 ≤ length chain.now.items }
    ensures side { (up : Bool) → IsSide up (corners points.now) at (corners chain.old.items)
        → OnOk result (IsSide up (corners points.now) (at + 1) (corners chain.new.items)) }
    ensures some { OnOk result (1 ≤ length chain.new.items) }
    ensures few { OnOk result (length chain.new.items ≤ length chain.old.items + 1) }
{
    let q = vertex(points, at);
    if are_same(vertex(chain.as_slice(), chain.len() - 1), q) {
        return Ok(());
    }
    let count = kept(points, at, chain.as_slice());
    chain.truncate(count);
    chain.push(q)?;
    Ok(())
}

/// One side of the hull of corners that come in raster order, or all the other way round, from the first to the last.
pub(crate) fn chain(alloc: Global, points: &[P2]) -> Result<Vec<P2>, NoMemory>
    requires { 1 ≤ length points.now }
    ensures side { (up : Bool)
        → IfOk result (λ h. IsSide up (corners points.now) (length points.now) (corners h.items)) }
    ensures few { IfOk result (λ h. length h.items ≤ length points.now) }
{
    let mut chain = Vec::new(alloc);
    chain.push(vertex(points, 0))?;
    for at in 1..points.len() {
        put(&mut chain, points, at)?;
    }
    Ok(chain)
}
