//! The corner paths of all cycles of cracks of a picture, each from its least crack, in the order of these.
//! Another way of keeping the paths changes nothing outside this file.
ghost use Rattle.std.specs.Prelude.{◌≡◌, ◌<◌, ◌≤◌, Some, slice_get, IfOk, All, length};
ghost use Rattle.shape_terms.specs.Limits.{most_round};
ghost use Rattle.shape_terms.specs.Contours.{IsCrack};
ghost use Rattle.shape_terms.specs.Traces.{AreContours};
ghost use Rattle.edge_terms.specs.Corners.{IsCornerPathFrom};
ghost use Rattle.shape_crack.specs.Terms.{crack_of};
ghost use Rattle.edge_terms.specs.EdgeCycles.{AreEdgeCycles};

use crate::corners::{Corners, corner_path};
use shape_crack::{Contours, Crack, contours};
use shape_grid::Grid;
use shape_space::{NoMemory, P2};
use std::alloc::Global;
use std::marker::Model;

/// The corner path of a cycle, and the crack that it begins with.
#[derive(Drop)]
pub struct Cycle {
    start: Crack,
    path: Corners,
}

impl Model for Cycle {
    ghost use Rattle.edge_terms.specs.EdgeCycles.{EdgeCycle};
    ghost use Rattle.shape_crack.specs.Terms.{crack_of};

    ghost Value = { EdgeCycle };

    ghost view = { λ k. record { start = crack_of k.start; path = k.path } };
}

impl Cycle {
    /// The crack that the cycle begins with.
    pub fn start(&self) -> Crack
        ensures { crack_of result ≡ self.now.start }
    {
        self.start
    }

    /// Its corner path.
    pub fn path(&self) -> &Corners
        ensures { result.now ≡ self.now.path }
    {
        &self.path
    }
}

/// The cycles of a picture, each once.
#[derive(Drop)]
pub struct Cycles {
    list: Vec<Cycle>,
}

impl Model for Cycles {
    ghost use Rattle.std.specs.Prelude.{◌<◌, ◌^◌, List, length};
    ghost use Rattle.edge_terms.specs.EdgeCycles.{EdgeCycle};

    ghost Value = { List EdgeCycle };

    ghost view = { λ k. k.list.items };

    ghost invariant = { λ k. length k.list.items < 2 ^ 32 };
}

impl Cycles {
    /// The number of cycles.
    pub fn len(&self) -> u32
        ensures { result ≡ length self.now }
    {
        self.list.len() as u32
    }

    /// The cycle at a place, from 0 on.
    pub fn cycle(&self, i: u32) -> &Cycle
        requires { i < length self.now }
        ensures { slice_get self.now i ≡ Some result.now }
    {
        &self.list[i as usize]
    }

    /// The greatest number of corners of a cycle.
    pub fn greatest(&self) -> u32
        ensures each { All (λ k. length k.path ≤ result) self.now }
        ensures few { result ≤ most_round }
    {
        let mut greatest: u32 = 0;
        for k in 0..self.len() {
            greatest = greatest.max(self.cycle(k).path().len());
        }
        greatest
    }
}

// The cycle that begins with a crack.
fn cycle_from(alloc: Global, grid: &Grid<P2>, start: Crack) -> Result<Cycle, NoMemory>
    requires { IsCrack grid.now (crack_of start) }
    ensures path { IfOk result (λ k. IsCornerPathFrom grid.now (crack_of start) k.path) }
    ensures start { IfOk result (λ k. k.start ≡ crack_of start) }
{
    let path = corner_path(alloc, grid, start)?;
    Ok(Cycle { start, path })
}

// The cycles of the contours of a picture.
fn cycles_of(alloc: Global, grid: &Grid<P2>, contours: &Contours) -> Result<Vec<Cycle>, NoMemory>
    requires { AreContours grid.now contours.now }
    ensures cycles { IfOk result (λ v. AreEdgeCycles grid.now v.items) }
    ensures few { IfOk result (λ v. length v.items ≡ length contours.now) }
{
    let mut list = Vec::new(alloc);
    for k in 0..contours.len() {
        let cycle = cycle_from(alloc, grid, contours.contour(k).start())?;
        list.push(cycle)?;
    }
    Ok(list)
}

/// The cycles of a picture.
///
/// # Errors
///
/// `NoMemory` where there is none for the corners.
pub fn all_cycles(alloc: Global, grid: &Grid<P2>) -> Result<Cycles, NoMemory>
    ensures { IfOk result (AreEdgeCycles grid.now) }
{
    let contours = contours(alloc, grid)?;
    let _count = contours.len();
    let list = cycles_of(alloc, grid, &contours)?;
    Ok(Cycles { list })
}
