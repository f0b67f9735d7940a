//! The numbers of the true values of a row: each is how many true values stand before it.
//! How bits are counted belongs elsewhere.
ghost use Rattle.std.specs.Prelude.{◌≡◌, ◌<◌, ◌≤◌, ℕ, IfOk, MatchOption, length, false, slice_index_or};
ghost use Rattle.shape_terms.specs.Limits.{most_framed};
ghost use Rattle.shape_grid.specs.Runs.{IsRunEnd};
ghost use Rattle.shape_grid.specs.Truths.{IsFirstTrue};
ghost use Rattle.shape_cells.specs.Counting.{trues, trues_before, AreCounts};

use crate::counts::{counts_of, ones_below};
use shape_grid::Bits;
use shape_space::NoMemory;
use std::alloc::Global;
use std::marker::Model;

/// A row of truth values whose true ones are numbered from 0 on.
///
/// Beside the bits it takes half a bit for each value, and at most 4 bytes.
#[derive(Drop)]
pub struct Numbering {
    bits: Bits,
    counts: Vec<u32>,
}

impl Model for Numbering {
    ghost use Rattle.std.specs.Prelude.{List, Bool};
    ghost use Rattle.shape_cells.specs.Counting.{AreCounts};

    ghost Value = { List Bool };

    ghost view = { λ n. n.bits };

    ghost invariant = { λ n. AreCounts n.bits n.counts.items };
}

impl Numbering {
    /// The numbering of a row, which it takes.
    pub fn of(alloc: Global, bits: Bits) -> Result<Numbering, NoMemory>
        requires { length bits ≤ most_framed }
        ensures { IfOk result (λ n. n ≡ bits) }
    {
        let counts = counts_of(alloc, &bits)?;
        Ok(Numbering { bits, counts })
    }

    /// A numbering of its own of the same row.
    pub fn copy(&self, alloc: Global) -> Result<Numbering, NoMemory>
        ensures { IfOk result (λ n. n ≡ self.now) }
    {
        let bits = self.bits.copy(alloc)?;
        let counts = self.counts.as_slice().to_vec(alloc)?;
        Ok(Numbering { bits, counts })
    }

    /// The number of values.
    #[inline]
    pub fn len(&self) -> u32
        ensures values { result ≡ length self.now }
        ensures few { length self.now ≤ most_framed }
    {
        let _counts = &self.counts;
        self.bits.len() as u32
    }

    /// The number of true values.
    #[inline]
    pub fn count(&self) -> u32
        ensures { result ≡ trues self.now }
    {
        self.number(self.len())
    }

    /// The value at a place.
    #[inline]
    pub fn has(&self, place: u32) -> bool
        requires { place < length self.now }
        ensures { result ≡ slice_index_or self.now place false }
    {
        self.bits.get(place as usize)
    }

    /// How many values before a place are true: the number of the value there, if it is true. It takes the same short time anywhere.
    #[inline]
    pub fn number(&self, place: u32) -> u32
        requires { place ≤ length self.now }
        ensures { result ≡ trues_before self.now place }
    {
        let word = place as usize / 64;
        self.counts[word] + ones_below(self.bits.word(word), place % 64)
    }

    /// The first place from a place on whose value is true.
    #[inline]
    pub fn first_from(&self, from: u32) -> Option<u32>
        ensures { MatchOption result ((k : ℕ) → from ≤ k → slice_index_or self.now k false ≡ false)
            (λ k. IsFirstTrue self.now from k) }
    {
        let _counts = &self.counts;
        let place = self.bits.first_from(from as usize)?;
        Some(place as u32)
    }

    /// The first place from a place on whose value is true, and `until` where there is none before it.
    #[inline]
    pub fn first_before(&self, from: u32, until: u32) -> u32
        requires ordered { from ≤ until }
        requires within { until ≤ length self.now }
        ensures { IsRunEnd self.now false from until result }
    {
        let _counts = &self.counts;
        self.bits.end_of_falses(from as usize, until as usize) as u32
    }
}
