//! The front of a thinning: places are passed in the order of their keys, and a point is looked at when its turn comes.
//! Which point is the next one, and what becomes of it, belongs to `thinner.rt`.
ghost use Rattle.std.specs.Prelude.{◌≡◌, ◌+◌, ◌<◌, ◌≤◌, List, ℕ, [], true, false, length, IfOk};
ghost use Rattle.shape_terms.specs.Points.{Point, box_count};
ghost use Rattle.shape_terms.specs.Pictures.{Picture, object_points};
ghost use Rattle.shape_queue.specs.declared.key.Key.{Key};
ghost use Rattle.shape_queue.specs.Keys.{has, IsLeastKey};
ghost use Rattle.shape_terms.specs.Distances.{AreDistances};
ghost use Rattle.shape_queue.specs.Going.{IsFrontOf, stage_of};
ghost use Rattle.shape_thin.specs.Fitting.{IsSomeFront};

use crate::next::Next;
use shape_cells::Cells;
use shape_grid::Grid;
use shape_queue::Queue;
use shape_space::{NoMemory, Steps};
use shape_topo::{MaskedGrid, SimpleMask};
use std::alloc::Global;
use std::sync::ledger::Ledger;

/// The front of a thinning: the points that it has reached, and the queue of those of them that may be taken.
///
/// A point is reached when its place is passed, and stays so while it is left and has no mark.
#[derive(Drop)]
pub(crate) struct Front<P: SimpleMask> {
    pub(crate) reached: Grid<P>,
    pub(crate) keys: Queue,
    /// How many places are passed.
    pub(crate) passed: u32,
    /// How many of the points left are still to be reached.
    pub(crate) ahead: u32,
}

impl<P: SimpleMask> Front<P> {
    ghost use Rattle.shape_thin.specs.Fronts.{reach_of, room_in, IsTakenOut};
    ghost use Rattle.shape_thin.specs.Standing.{key_of};

    /// The front before any object point's place is passed: those with the distance 0 have the first ranks.
    pub(crate) fn new(
        alloc: Global,
        grid: &Grid<P>,
        distances: Cells<u32>,
    ) -> Result<Front<P>, NoMemory>
        requires { AreDistances grid.now distances.values }
        ensures front { IfOk result
            (λ f. (state : List ℕ) → IsFrontOf grid.now (stage_of grid.now [] state) (reach_of f)) }
        ensures room { IfOk result (λ f. room_in f ≡ length (object_points grid.now)) }
        ensures ahead { IfOk result (λ f. f.ahead ≡ length (object_points grid.now)) }
    {
        grid.is_picture();
        let sides = grid.sides();
        let keys = Queue::new(alloc, sides.side(0) as u32, distances)?;
        let passed = keys.first_rank();
        let reached = Grid::new(alloc, sides)?;
        Ok(Front {
            reached,
            keys,
            passed,
            ahead: grid.count(),
        })
    }

    // Passes the next place. Where its point is left, this is reached and looked at.
    #[inline(always)]
    fn pass<L: Ledger>(&mut self, left: &MaskedGrid<P>, steps: &mut Steps<L>)
        requires fits { ∥ IsSomeFront left.now (reach_of self.old) ∥₁ }
        requires some { 0 < self.old.ahead }
        ensures front { (X : Picture) (marked : List Point) (state : List ℕ)
            → IsFrontOf X (stage_of left.now marked state) (reach_of self.old)
            → IsFrontOf X (stage_of left.now marked state) (reach_of self.new) }
        ensures room { room_in self.new ≡ room_in self.old }
        ensures few { steps.new + self.new.ahead ≤ steps.old + self.old.ahead }
        ensures one_more { self.new.passed ≡ self.old.passed + 1 }
        ensures distances { self.new.keys.distances ≡ self.old.keys.distances }
    {
        self.reached.is_picture();
        let rank = self.passed;
        let key = self.keys.ranked(rank);
        self.passed += 1;
        if left.has(key.place) {
            self.ahead -= 1;
            self.reached.set_number(key.place);
            let simple = left.is_simple(key.place, steps);
            self.keys.settle_ranked(rank, simple);
        }
    }

    /// Passes places until a key waits, or no point left is ahead.
    #[inline(always)]
    pub(crate) fn advance<L: Ledger>(&mut self, left: &MaskedGrid<P>, steps: &mut Steps<L>)
        requires { ∥ IsSomeFront left.now (reach_of self.old) ∥₁ }
        ensures front { (X : Picture) (marked : List Point) (state : List ℕ)
            → IsFrontOf X (stage_of left.now marked state) (reach_of self.old)
            → IsFrontOf X (stage_of left.now marked state) (reach_of self.new) }
        ensures done { ((k : Key) → has self.new.keys k ≡ false) → self.new.ahead ≡ 0 }
        ensures room { room_in self.new ≡ room_in self.old }
        ensures few { steps.new + self.new.ahead ≤ steps.old + self.old.ahead }
    {
        while self.ahead > 0 && self.keys.is_empty() {
            self.pass(left, steps);
        }
    }

    /// Takes the next point out of those reached.
    #[inline(always)]
    pub(crate) fn take(&mut self, next: &Next<P>)
        requires there { has self.old.keys (key_of next.now) ≡ true }
        requires least { IsLeastKey (has self.old.keys) (key_of next.now) }
        requires inside { next.now.place < box_count self.old.reached.sides }
        ensures { IsTakenOut (key_of next.now) (reach_of self.old) (reach_of self.new) }
    {
        self.keys.pop();
        self.reached.clear_number(next.place);
    }
}
