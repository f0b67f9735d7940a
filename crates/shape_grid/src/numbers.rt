//! A set of numbers, one of which may be at hand: it is put in and taken out without a change of the levels.
//! A set that seldom has more than one number costs little so; how the others are kept stands in `levels.rt`.
ghost use Rattle.std.specs.Prelude.{◌≡◌, ℕ, ◌*◌, ◌<◌, ◌≤◌, length, IfOk, MatchOption};
ghost use Rattle.shape_terms.specs.Limits.{most_framed};
ghost use Rattle.shape_grid.specs.Sets.{In, IsPut, IsLeast};

use crate::levels::Levels;
use shape_space::NoMemory;
use std::alloc::Global;
use std::marker::Model;

/// A set of numbers. It takes a bit for each number that it may hold, and a little more.
#[derive(Drop)]
pub struct Numbers {
    levels: Levels,
    // A number of the set that the levels do not hold.
    hand: Option<usize>,
}

impl Model for Numbers {
    ghost use Rattle.std.specs.Prelude.{ℕ, List};
    ghost use Rattle.shape_grid.specs.Hands.{with_hand, IsApart};

    ghost Value = { List ℕ };

    ghost view = { λ s. with_hand s.hand s.levels };

    ghost invariant = { λ s. IsApart s.hand s.levels };
}

impl Numbers {
    /// The empty set, with room for the numbers below the bound.
    pub fn new(alloc: Global, below: usize) -> Result<Numbers, NoMemory>
        requires { below ≤ most_framed }
        ensures room { IfOk result (λ s. below ≤ 64 * length s) }
        ensures empty { IfOk result (λ s. (i : ℕ) → In s i → ⊥) }
    {
        let levels = Levels::new(alloc, below)?;
        Ok(Numbers { levels, hand: None })
    }

    /// Puts the number into the set.
    #[inline(always)]
    pub fn insert(&mut self, i: usize)
        requires { i < 64 * length self.old }
        ensures { IsPut self.old self.new i 1 }
    {
        match self.hand {
            Some(h) if h == i => {}
            Some(_) => self.levels.insert(i),
            None => {
                if !self.levels.has(i) {
                    self.hand = Some(i);
                }
            }
        }
    }

    /// Takes the number out of the set.
    #[inline(always)]
    pub fn remove(&mut self, i: usize)
        requires { i < 64 * length self.old }
        ensures { IsPut self.old self.new i 0 }
    {
        match self.hand {
            Some(h) if h == i => self.hand = None,
            _ => self.levels.remove(i),
        }
    }

    /// The least number of the set.
    #[inline(always)]
    pub fn least(&self) -> Option<usize>
        ensures { MatchOption result ((i : ℕ) → In self.now i → ⊥)
            (λ i. IsLeast self.now i) }
    {
        match (self.levels.least(), self.hand) {
            (Some(i), Some(h)) => Some(i.min(h)),
            (None, hand) => hand,
            (least, None) => least,
        }
    }
}
