//! A list of numbers that is painted: a place that has one keeps it, and stretches of painted places are passed at once.
//! What the numbers mean belongs elsewhere.
ghost use Rattle.std.specs.Prelude.{◌≡◌, ◌+◌, ◌<◌, ◌≤◌, ◌^◌, IfOk, length, nat_lt, replicate, slice_index};
ghost use Rattle.shape_terms.specs.Limits.{most_points};
ghost use Rattle.shape_thickness.specs.Painting.{IsPainted, IsFrom};

use shape_space::NoMemory;
use std::alloc::Global;
use std::marker::Model;

/// Numbers by place, and for each place one up to which all from it on are painted, if it is greater.
#[derive(Drop)]
pub(crate) struct Canvas {
    values: Vec<u32>,
    next: Vec<u32>,
}

impl Model for Canvas {
    ghost use Rattle.std.specs.Prelude.{ℕ, List};
    ghost use Rattle.shape_thickness.specs.Painting.{AreSkips};

    ghost Value = { List ℕ };

    ghost view = { λ c. c.values.items };

    ghost invariant = { λ c. AreSkips c.values.items c.next.items };
}

impl Canvas {
    /// So many bare places.
    pub(crate) fn new(alloc: Global, len: u32) -> Result<Canvas, NoMemory>
        requires { len ≤ most_points }
        ensures { IfOk result (λ c. c ≡ replicate len 0) }
    {
        let values = vec![in alloc; 0u32; len as usize]?;
        let next = vec![in alloc; 0u32; len as usize]?;
        Ok(Canvas { values, next })
    }

    /// Whether a place is painted.
    pub(crate) fn is_painted(&self, i: u32) -> bool
        requires { i < length self.now }
        ensures { result ≡ nat_lt 0 (slice_index self.now i) }
    {
        self.values[i as usize] > 0
    }

    /// The numbers.
    pub(crate) fn into_values(self) -> Vec<u32>
        ensures { result.items ≡ self }
    {
        self.values
    }

    // The place after painted ones that begin at a place, where one is told. That of the place behind them is told too.
    fn skip(&mut self, i: u32) -> u32
        requires { i < length self.old }
        ensures same { self.new ≡ self.old }
        ensures later { i ≤ result }
        ensures within { result ≤ length self.old }
        ensures painted { IsPainted (IsFrom i result) (IsFrom i result) 0 self.old self.new }
    {
        let after = self.next[i as usize];
        if after <= i {
            return i;
        }
        if (after as usize) < self.next.len() {
            let far = self.next[after as usize];
            if far > after {
                self.next[i as usize] = far;
            }
        }
        after
    }

    // Paints a place if it is bare.
    fn put(&mut self, i: u32, s: u32)
        requires inside { i < length self.old }
        requires some { 0 < s }
        ensures { IsPainted (IsFrom i (i + 1)) (IsFrom i (i + 1)) s self.old self.new }
    {
        if self.values[i as usize] == 0 {
            self.values[i as usize] = s;
        }
        self.next[i as usize] = i + 1;
    }

    /// Paints the bare places from the first to before the end.
    pub(crate) fn paint(&mut self, first: u32, end: u32, s: u32)
        requires within { end ≤ length self.old }
        requires some { 0 < s }
        ensures { IsPainted (IsFrom first end) (IsFrom first end) s self.old self.new }
    {
        let mut i = first;
        while i < end {
            let after = self.skip(i);
            if after > i {
                i = after;
            } else {
                self.put(i, s);
                i += 1;
            }
        }
    }
}
