//! A set of numbers below a bound as levels of words, where the least is found by a few words.
//! How bits are set in words belongs elsewhere.
ghost use Rattle.std.specs.Prelude.{◌≡◌, ℕ, ◌*◌, ◌^◌, ◌<◌, ◌≤◌, length, IfOk, MatchOption};
ghost use Rattle.shape_terms.specs.Limits.{most_framed};
ghost use Rattle.shape_grid.specs.Sets.{In, IsPut, IsLeast};
ghost use Rattle.shape_grid.specs.Truths.{is_in};

use crate::words::{has, least_from, least_of_word, no_bits, put_in, take_out};
use shape_space::NoMemory;
use std::alloc::Global;
use std::marker::Model;

/// A set of numbers. It takes a bit for each number that it may hold, and a little more.
#[derive(Drop)]
pub(crate) struct Levels {
    base: Vec<u64>,
    first: Vec<u64>,
    second: Vec<u64>,
    top: Vec<u64>,
}

impl Model for Levels {
    ghost use Rattle.std.specs.Prelude.{ℕ, List};
    ghost use Rattle.shape_grid.specs.Levels.{AreLevels};

    ghost Value = { List ℕ };

    ghost view = { λ s. s.base.items };

    ghost invariant = { λ s. AreLevels s.base.items s.first.items s.second.items s.top.items };
}

impl Levels {
    /// The empty set, with room for the numbers below the bound.
    pub(crate) fn new(alloc: Global, below: usize) -> Result<Levels, NoMemory>
        requires { below ≤ most_framed }
        ensures room { IfOk result (λ s. below ≤ 64 * length s) }
        ensures empty { IfOk result (λ s. (i : ℕ) → In s i → ⊥) }
    {
        let base = no_bits(alloc, below / 64 + 1)?;
        let first = no_bits(alloc, below / 4096 + 1)?;
        let second = no_bits(alloc, below / 262144 + 1)?;
        let top = no_bits(alloc, below / 16777216 + 1)?;
        Ok(Levels {
            base,
            first,
            second,
            top,
        })
    }

    /// Whether the number is in the set.
    #[inline(always)]
    pub(crate) fn has(&self, i: usize) -> bool
        requires { i < 64 * length self.now }
        ensures { result ≡ is_in self.now i }
    {
        has(self.base.as_slice(), i)
    }

    /// Puts the number into the set.
    #[inline(always)]
    pub(crate) fn insert(&mut self, i: usize)
        requires { i < 64 * length self.old }
        ensures { IsPut self.old self.new i 1 }
    {
        if put_in(&mut self.base, i) {
            if put_in(&mut self.first, i / 64) {
                if put_in(&mut self.second, i / 64 / 64) {
                    put_in(&mut self.top, i / 64 / 64 / 64);
                }
            }
        }
    }

    /// Takes the number out of the set.
    #[inline(always)]
    pub(crate) fn remove(&mut self, i: usize)
        requires { i < 64 * length self.old }
        ensures { IsPut self.old self.new i 0 }
    {
        if take_out(&mut self.base, i) {
            if take_out(&mut self.first, i / 64) {
                if take_out(&mut self.second, i / 64 / 64) {
                    take_out(&mut self.top, i / 64 / 64 / 64);
                }
            }
        }
    }

    /// The least number of the set.
    #[inline(always)]
    pub(crate) fn least(&self) -> Option<usize>
        ensures { MatchOption result ((i : ℕ) → In self.now i → ⊥)
            (λ i. IsLeast self.now i) }
    {
        let second = least_from(self.top.as_slice(), 0)?;
        let first = least_of_word(self.second.as_slice(), second);
        let base = least_of_word(self.first.as_slice(), first);
        Some(least_of_word(self.base.as_slice(), base))
    }
}
