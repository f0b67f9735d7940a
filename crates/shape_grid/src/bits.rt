//! A row of truth values, each of them a bit.
//! How bits are read and set in words belongs elsewhere.
ghost use Rattle.std.specs.Prelude.{◌≡◌, ℕ, ◌+◌, ◌/◌, ◌^◌, ◌<◌, ◌≤◌, IfOk, MatchOption, length, true, false, replicate, slice_index_or, slice_set};
ghost use Rattle.shape_terms.specs.Limits.{most_framed};
ghost use Rattle.shape_grid.specs.Truths.{IsFirstTrue, AreThree, AreOfWord};

use crate::words::{has, least_from, no_bits, put_in, take_out, three_at, word_at};
use shape_space::NoMemory;
use std::alloc::Global;
use std::marker::Model;

/// A row of truth values. It takes a bit for each, and at most 64 more.
#[derive(Drop)]
pub struct Bits {
    pub(crate) words: Vec<u64>,
    pub(crate) len: usize,
}

impl Model for Bits {
    ghost use Rattle.std.specs.Prelude.{List, Bool};
    ghost use Rattle.shape_grid.specs.Truths.{truths, AreTruths};

    ghost Value = { List Bool };

    ghost view = { λ b. truths b.words.items b.len };

    ghost invariant = { λ b. AreTruths b.words.items b.len };
}

impl Bits {
    /// A row of so many values, none of which is true.
    pub fn new(alloc: Global, len: usize) -> Result<Bits, NoMemory>
        requires { len ≤ most_framed }
        ensures { IfOk result (λ b. b ≡ replicate len false) }
    {
        let words = no_bits(alloc, len / 64 + 1)?;
        Ok(Bits { words, len })
    }

    /// A row of its own with the same values.
    pub fn copy(&self, alloc: Global) -> Result<Bits, NoMemory>
        ensures { IfOk result (λ b. b ≡ self.now) }
    {
        let words = self.words.as_slice().to_vec(alloc)?;
        Ok(Bits {
            words,
            len: self.len,
        })
    }

    /// The value at a place.
    pub fn get(&self, i: usize) -> bool
        requires { i < length self.now }
        ensures { result ≡ slice_index_or self.now i false }
    {
        has(self.words.as_slice(), i)
    }

    /// The values at three places in a row, from a place on: bit b is set where the value b places on is true.
    pub fn three(&self, i: usize) -> u32
        requires { i + 2 < length self.now }
        ensures { AreThree self.now i result }
    {
        three_at(self.words.as_slice(), i)
    }

    /// The number of values.
    pub fn len(&self) -> usize
        ensures { result ≡ length self.now }
    {
        self.len
    }

    /// The values of a word, 64 of them: bit k is set where the value k places behind place 64 * w is true. Behind the last value no bit is set.
    pub fn word(&self, w: usize) -> u64
        requires { w ≤ length self.now / 64 }
        ensures { AreOfWord self.now w result }
    {
        word_at(self.words.as_slice(), w)
    }

    /// Makes the value at a place true.
    pub fn set(&mut self, i: usize)
        requires { i < length self.old }
        ensures { self.new ≡ slice_set self.old i true }
    {
        put_in(&mut self.words, i);
    }

    /// Makes the value at a place false.
    pub fn clear(&mut self, i: usize)
        requires { i < length self.old }
        ensures { self.new ≡ slice_set self.old i false }
    {
        take_out(&mut self.words, i);
    }

    /// The first place from a place on whose value is true.
    pub fn first_from(&self, from: usize) -> Option<usize>
        ensures { MatchOption result ((k : ℕ) → from ≤ k → slice_index_or self.now k false ≡ false)
            (λ k. IsFirstTrue self.now from k) }
    {
        if from < self.len {
            least_from(self.words.as_slice(), from)
        } else {
            None
        }
    }
}
