//! The hull of corners in raster order: the chain along them, and then the chain back.
//! How a chain is made is told in `chain`.
ghost use Rattle.std.specs.Prelude.{◌≡◌, ◌≤◌, ◌+◌, ◌-◌, ◌++◌, take, drop, length, reverse, IfOk, OnOk};
ghost use Rattle.measure_terms.specs.Hulls.{IsHull};
ghost use Rattle.measuring.specs.Corners.{corners, AreInRasterOrder, IsOf};

use crate::chain::chain;
use shape_space::{NoMemory, P2};
use std::alloc::Global;

// The corners the other way round.
fn reversed(alloc: Global, points: &[P2]) -> Result<Vec<P2>, NoMemory>
    ensures { IfOk result (λ b. b.items ≡ reverse points.now) }
{
    let mut back = Vec::from_slice(alloc, points)?;
    back.reverse();
    Ok(back)
}

// Puts the corners between the first and the last of a chain behind those of another.
fn join(round: &mut Vec<P2>, back: &[P2]) -> Result<(), NoMemory>
    ensures { OnOk result (round.new.items
        ≡ round.old.items ++ take (length back.now - 2) (drop 1 back.now)) }
{
    let count = back.len();
    if count < 3 {
        return Ok(());
    }
    round.extend_from_slice(&back[1..count - 1])?;
    Ok(())
}

/// The vertices of the convex hull of corners in raster order, one round from the first corner on.
///
/// It takes memory for twice the corners.
pub(crate) fn hull(alloc: Global, points: &[P2]) -> Result<Vec<P2>, NoMemory>
    requires some { 1 ≤ length points.now }
    requires order { AreInRasterOrder (corners points.now) }
    ensures hull { IfOk result (λ h. IsHull (IsOf (corners points.now)) (corners h.items)) }
    ensures few { IfOk result (λ h. length h.items ≤ length points.now + length points.now) }
{
    let mut round = chain(alloc, points)?;
    let turned = reversed(alloc, points)?;
    let back = chain(alloc, turned.as_slice())?;
    join(&mut round, back.as_slice())?;
    Ok(round)
}
