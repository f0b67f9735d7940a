//! The points that a patch refused, each with the weights of the list that it would have ended.
//! Contracts see them as a list; in which order they are needed belongs elsewhere.
ghost use Rattle.std.specs.Prelude.{◌≡◌, ◌<◌, [], ◌∷◌, ◌++◌, IfOk, IsPermutation, Some, slice_get, length};
ghost use Rattle.std.specs.List.Sorted.{IsNonDecreasingBy};
ghost use Rattle.shape_plane.specs.Trials.{Refusal, refusal_of};

use shape_refute::Refutation;
use shape_space::{NoMemory, Point};
use std::alloc::Global;
use std::marker::Model;

/// A refused point, with the weights that refute the points that the patch had then with this one put last.
#[derive(Clone, Copy)]
pub struct Refused<P> {
    pub point: P,
    /// The raster number of the point.
    pub number: u32,
    pub why: Refutation,
    /// How many points the patch had.
    pub count: u32,
}

// For how many refused points there is room from the start.
const FEW: usize = 16;

/// The refused points of a patch.
#[derive(Drop)]
pub struct Refusals<P: Point> {
    items: Vec<Refused<P>>,
}

impl<P: Point> Model for Refusals<P> {
    ghost use Rattle.std.specs.Prelude.{List, map};
    ghost use Rattle.shape_plane.specs.Trials.{Refusal, refusal_of};

    ghost Value = { List Refusal };

    ghost view = { λ s. map (refusal_of P.coords) s.items.items };
}

impl<P: Point> Refusals<P> {
    /// None.
    pub fn new(alloc: Global) -> Result<Self, NoMemory>
        ensures { IfOk result (λ r. r ≡ []) }
    {
        let items = Vec::with_capacity(alloc, FEW)?;
        Ok(Refusals { items })
    }

    /// Puts a refused point last.
    pub fn push(&mut self, r: Refused<P>) -> Result<(), NoMemory>
        ensures { IfOk result (λ _. self.new ≡ self.old ++ refusal_of P.coords r ∷ []) }
    {
        self.items.push(r)?;
        Ok(())
    }

    /// Puts the refused points in the order of their raster numbers.
    pub fn sort(&mut self)
        ensures same { IsPermutation self.old self.new }
        ensures rising { IsNonDecreasingBy (λ (r : Refusal). r.number) self.new }
    {
        self.items.sort_unstable_by_key(|r| r.number);
    }

    /// The number of refused points.
    pub fn len(&self) -> usize
        ensures { result ≡ length self.now }
    {
        self.items.len()
    }

    /// The refused point at a place, from 0 on.
    pub fn get(&self, i: usize) -> &Refused<P>
        requires { i < length self.now }
        ensures { slice_get self.now i ≡ Some (refusal_of P.coords result.now) }
    {
        &self.items[i]
    }
}
