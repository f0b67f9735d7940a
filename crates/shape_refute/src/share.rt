//! Lists of at most four weights, of places of a list and of steps.
//! Contracts see them as lists; how the entries are kept may change here.
ghost use Rattle.std.specs.Prelude.{◌≡◌, ◌<◌, ◌≤◌, [], ◌∷◌, ◌++◌, length, slice_get, Some};
ghost use Rattle.shape_refute.specs.Shown.{share_of, step_share_of};

use std::marker::Model;

/// A step of an axis `t`: along it alone, or along another axis as well.
#[derive(Clone, Copy, Debug, PartialEq, Eq)]
pub enum Step {
    /// One step along `t`.
    Up,
    /// One step along `t` and one along this axis.
    Plus(u8),
    /// One step along `t` and one back along this axis.
    Minus(u8),
}

/// A place of a list of points, counted from 0, taken `weight` times.
#[derive(Clone, Copy, Debug, PartialEq, Eq)]
pub struct Share {
    /// How often.
    pub weight: u64,
    /// Which place.
    pub place: u32,
}

/// A step taken `weight` times.
#[derive(Clone, Copy, Debug, PartialEq, Eq)]
pub struct StepShare {
    /// How often.
    pub weight: u64,
    /// Which step.
    pub step: Step,
}

/// At most four weighed places.
#[derive(Clone, Copy)]
pub struct Shares {
    entries: [Share; 4],
    count: usize,
}

impl Model for Shares {
    ghost use Rattle.std.specs.Prelude.{◌≡◌, ◌≤◌, ◌-◌, List, length, map, take, drop, replicate, refl};
    ghost use Rattle.shape_terms.specs.Refutations.{Share as Weighed};
    ghost use Rattle.shape_refute.specs.Shown.{share_of};
    ghost use Rattle.shape_refute.specs.Kept.{kept_share, no_share, four_places, refilled, recounted};

    ghost Value = { List Weighed };

    ghost view = { λ s. map share_of (take s.count s.entries) };

    ghost invariant = { λ s. (s.count ≤ 4) × (length s.entries ≡ 4)
        × (drop s.count s.entries ≡ replicate (4 - s.count) no_share) };

    ghost inverse = { λ seen. record { entries = four_places kept_share no_share seen; count = length seen } };

    ghost inverse_ok = { λ s h i. record { entries = refilled share_of kept_share (λ x. refl) no_share s.entries s.count h.0 h.1 h.2 i; count = recounted share_of s.entries s.count h.0 h.1 i } };
}

impl Shares {
    /// No entry.
    pub fn new() -> Self
        ensures { result ≡ [] }
    {
        Shares {
            entries: [Share {
                weight: 0,
                place: 0,
            }; 4],
            count: 0,
        }
    }

    /// The number of entries.
    pub fn len(&self) -> usize
        ensures value { result ≡ length self.now }
        ensures few { result ≤ 4 }
    {
        self.count
    }

    /// The entry at a place, from 0 on.
    pub fn get(&self, i: usize) -> Share
        requires { i < length self.now }
        ensures { slice_get self.now i ≡ Some (share_of result) }
    {
        let entries = &self.entries;
        entries[i]
    }

    /// Puts an entry last.
    pub fn push(&mut self, share: Share)
        requires { length self.old < 4 }
        ensures { self.new ≡ self.old ++ share_of share ∷ [] }
    {
        self.entries[self.count] = share;
        self.count += 1;
    }
}

/// At most four weighed steps.
#[derive(Clone, Copy)]
pub struct StepShares {
    entries: [StepShare; 4],
    count: usize,
}

impl Model for StepShares {
    ghost use Rattle.std.specs.Prelude.{◌≡◌, ◌≤◌, ◌-◌, List, length, map, take, drop, replicate};
    ghost use Rattle.shape_terms.specs.Refutations.{StepShare as WeighedStep};
    ghost use Rattle.shape_refute.specs.Shown.{step_share_of};
    ghost use Rattle.shape_refute.specs.Kept.{kept_step_share, no_step_share, four_places, refilled, recounted, same_step_share};

    ghost Value = { List WeighedStep };

    ghost view = { λ s. map step_share_of (take s.count s.entries) };

    ghost invariant = { λ s. (s.count ≤ 4) × (length s.entries ≡ 4)
        × (drop s.count s.entries ≡ replicate (4 - s.count) no_step_share) };

    ghost inverse = { λ seen. record { entries = four_places kept_step_share no_step_share seen; count = length seen } };

    ghost inverse_ok = { λ s h i. record { entries = refilled step_share_of kept_step_share same_step_share no_step_share s.entries s.count h.0 h.1 h.2 i; count = recounted step_share_of s.entries s.count h.0 h.1 i } };
}

impl StepShares {
    /// No entry.
    pub fn new() -> Self
        ensures { result ≡ [] }
    {
        StepShares {
            entries: [StepShare {
                weight: 0,
                step: Step::Up,
            }; 4],
            count: 0,
        }
    }

    /// The number of entries.
    pub fn len(&self) -> usize
        ensures value { result ≡ length self.now }
        ensures few { result ≤ 4 }
    {
        self.count
    }

    /// The entry at a place, from 0 on.
    pub fn get(&self, i: usize) -> StepShare
        requires { i < length self.now }
        ensures { slice_get self.now i ≡ Some (step_share_of result) }
    {
        let entries = &self.entries;
        entries[i]
    }

    /// Puts an entry last.
    pub fn push(&mut self, share: StepShare)
        requires { length self.old < 4 }
        ensures { self.new ≡ self.old ++ step_share_of share ∷ [] }
    {
        self.entries[self.count] = share;
        self.count += 1;
    }
}
