//! A grid that tells the mask of near neighbours of each of its points. No mask is kept: it is read by rows of the grid's bits
//! when it is asked for, and a deletion changes one bit.
//! What a mask says of its point belongs elsewhere.
ghost use Rattle.std.specs.Prelude.{◌≡◌, ◌+◌, ◌<◌, ◌^◌, ◌↔◌, IfOk, IsTrue};
ghost use Rattle.shape_terms.specs.Points.{sides_of, in_box, box_count, raster_number, raster_point};
ghost use Rattle.shape_terms.specs.Pictures.{IsPicture, at};
ghost use Rattle.shape_terms.specs.Adjacency.{near_point};
ghost use Rattle.shape_terms.specs.Simple.{IsSimple};
ghost use Rattle.shape_terms.specs.Thinning.{without, near_count};
ghost use Rattle.shape_adj.specs.NearMasks.{IsNearMask};

use crate::mask::mask_at;
use crate::simple::SimpleMask;
use shape_adj::{NearNumbers, Pairing};
use shape_grid::Grid;
use shape_space::{NoMemory, Sides, Steps};
use std::alloc::Global;
use std::marker::Model;
use std::sync::ledger::Ledger;

/// A grid that tells the mask of near neighbours of each of its points.
///
/// It takes a bit for each point of the box and a few numbers for the neighbours.
#[derive(Drop)]
pub struct MaskedGrid<P: Pairing> {
    grid: Grid<P>,
    near: NearNumbers<P>,
}

impl<P: Pairing> Model for MaskedGrid<P> {
    ghost use Rattle.std.specs.Prelude.{◌≡◌};
    ghost use Rattle.shape_terms.specs.Points.{sides_of};
    ghost use Rattle.shape_terms.specs.Pictures.{Picture};

    ghost Value = { Picture };

    ghost view = { λ m. m.grid };

    ghost invariant = { λ m. sides_of (P.coords m.near.sides.lengths) ≡ m.grid.sides };
}

impl<P: Pairing> MaskedGrid<P> {
    /// The grid, with the numbers of the near neighbours in its box.
    pub fn new(alloc: Global, grid: Grid<P>) -> Result<MaskedGrid<P>, NoMemory>
        ensures { IfOk result (λ m. m ≡ grid) }
    {
        let near = NearNumbers::new(alloc, grid.sides())?;
        Ok(MaskedGrid { grid, near })
    }

    /// The grid.
    pub fn grid(&self) -> &Grid<P>
        ensures { result.now ≡ self.now }
    {
        &self.grid
    }

    /// The grid, and nothing else.
    pub fn into_grid(self) -> Grid<P>
        ensures { result ≡ self }
    {
        self.grid
    }

    /// The sides of the box.
    pub fn sides(&self) -> Sides<P>
        ensures value { sides_of (P.coords result.lengths) ≡ self.now.sides }
        ensures picture { IsPicture P.DIM self.now }
    {
        self.grid.sides()
    }

    /// The raster number of a near neighbour that is in the box, from that of the point.
    pub fn near_number(&self, i: u32, k: usize) -> u32
        requires below { k < P.NEAR_COUNT }
        requires point { i < box_count self.now.sides }
        requires inside { IsTrue (in_box self.now.sides
            (near_point (raster_point self.now.sides i) k)) }
        ensures { result ≡ raster_number self.now.sides
            (near_point (raster_point self.now.sides i) k) }
    {
        self.near.number(i, k)
    }

    /// Whether the point with a raster number is an object point.
    pub fn has(&self, i: u32) -> bool
        requires { i < box_count self.now.sides }
        ensures { result ≡ at self.now (raster_point self.now.sides i) }
    {
        self.grid.has_number(i)
    }

    /// The mask of the point with a raster number: bit k is set where near neighbour k is object.
    pub fn mask(&self, i: u32) -> u32
        requires { i < box_count self.now.sides }
        ensures mask { IsNearMask self.now (raster_point self.now.sides i) result }
        ensures few { result < 2 ^ P.NEAR_COUNT }
    {
        mask_at(&self.grid, &self.near, i)
    }

    /// How many near neighbours of the point with a raster number are object.
    pub fn near_count(&self, i: u32) -> u8
        requires { i < box_count self.now.sides }
        ensures { result ≡ near_count self.now (raster_point self.now.sides i) }
    {
        self.mask(i).count_ones() as u8
    }

    /// Makes the point with a raster number a background point.
    pub fn clear(&mut self, i: u32)
        requires { i < box_count self.old.sides }
        ensures { self.new ≡ without self.old (raster_point self.old.sides i) }
    {
        self.grid.clear_number(i);
    }
}

impl<P: SimpleMask> MaskedGrid<P> {
    /// Whether the object point with a raster number is simple. This is one step.
    pub fn is_simple<L: Ledger>(&self, i: u32, steps: &mut Steps<L>) -> bool
        requires below { i < box_count self.now.sides }
        requires object { IsTrue (at self.now (raster_point self.now.sides i)) }
        ensures simple { IsTrue result ↔ IsSimple self.now (raster_point self.now.sides i) }
        ensures one_step { steps.new ≡ steps.old + 1 }
    {
        self.grid.is_picture();
        P::simple_mask(self.mask(i), steps)
    }
}
