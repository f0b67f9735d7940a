//! A thinning between two events: the points left, and how far its front has come.
//! How places are passed stands in `front.rt`, how near points are looked at after a deletion in `look.rt`.
ghost use Rattle.std.specs.Prelude.{◌≡◌, ◌+◌, ◌≤◌, ◌^◌, [], length, MatchOption, IfOk};
ghost use Rattle.shape_terms.specs.Points.{box_count};
ghost use Rattle.shape_terms.specs.Pictures.{IsPicture, object_points};
ghost use Rattle.shape_terms.specs.Thinning.{Rule};
ghost use Rattle.shape_terms.specs.Distances.{AreDistances};
ghost use Rattle.shape_thin.specs.Fitting.{AreFitting};
ghost use Rattle.shape_thin.specs.Fronts.{reach_of};

use crate::front::Front;
use crate::look::look_round;
use crate::next::Next;
use shape_cells::Cells;
use shape_grid::Grid;
use shape_rules::Facts;
use shape_space::{NoMemory, Steps};
use shape_topo::{MaskedGrid, SimpleMask};
use std::alloc::Global;
use std::sync::ledger::Ledger;

/// A thinning between two events.
#[derive(Drop)]
pub struct Thinner<P: SimpleMask> {
    left: MaskedGrid<P>,
    front: Front<P>,
    ghost fits: { ∥ AreFitting left (reach_of front) ∥₁ },
}

impl<P: SimpleMask> Thinner<P> {
    ghost use Rattle.shape_terms.specs.Limits.{most_points};
    ghost use Rattle.shape_thin.specs.Standing.{StandsFor, room_of, ahead_of, IsAtEnd, IsNextOf, GoesOn};

    /// A thinning before its first event, by whatever rule. Object points are tested when they are reached: a step each.
    pub fn begin<L: Ledger>(
        alloc: Global,
        grid: &Grid<P>,
        distances: Cells<u32>,
        steps: &mut Steps<L>,
    ) -> Result<Thinner<P>, NoMemory>
        requires { AreDistances grid.now distances.values }
        ensures stands { IfOk result (λ t. (by : Rule) → StandsFor by grid.now [] by.opening t) }
        ensures picture { IfOk result (λ t. IsPicture P.DIM grid.now) }
        ensures small { IfOk result (λ t. box_count grid.now.sides ≤ most_points) }
        ensures room { IfOk result (λ t. room_of t ≡ length (object_points grid.now)) }
        ensures few { IfOk result
            (λ t. steps.new + ahead_of t ≤ steps.old + length (object_points grid.now)) }
    {
        grid.is_picture();
        let left = MaskedGrid::new(alloc, grid.copy(alloc)?)?;
        let mut front = Front::new(alloc, grid, distances)?;
        front.advance(&left, steps);
        Ok(Thinner { left, front })
    }

    /// The next point, unless the thinning is at its end.
    pub fn next(&self) -> Option<Next<P>>
        ensures { MatchOption result (IsAtEnd self.now)
            (λ n. IsNextOf self.now n (P.coords n.point)) }
    {
        let key = self.front.keys.least()?;
        let point = self.left.sides().unraster(key.place);
        let mask = self.left.mask(key.place);
        let facts = Facts {
            neighbours: mask.count_ones() as u8,
            distance: u64::from(key.distance),
        };
        Some(Next {
            point,
            place: key.place,
            facts,
            mask,
        })
    }

    /// Goes on after the next point was marked, or is deleted. After a deletion each near neighbour that was reached is tested, and
    /// each point that is reached then: a step each.
    pub fn settle<L: Ledger>(&mut self, next: &Next<P>, tips: bool, steps: &mut Steps<L>)
        requires { IsNextOf self.old next.now (P.coords next.now.point) }
        ensures stands { GoesOn self.old next.now (P.coords next.now.point) tips self.new }
        ensures room { room_of self.new + 1 ≡ room_of self.old }
        ensures few { steps.new + ahead_of self.new ≤ steps.old + ahead_of self.old + P.NEAR_COUNT }
    {
        self.front.take(next);
        if tips {
            return self.front.advance(&self.left, steps);
        }
        self.left.clear(next.place);
        look_round(
            &self.left,
            &self.front.reached,
            &mut self.front.keys,
            next.place,
            next.mask,
            steps,
        );
        self.front.advance(&self.left, steps);
    }

    /// The points left.
    pub fn left(&self) -> &Grid<P>
        ensures { result.now ≡ self.now.left }
    {
        self.left.grid()
    }

    /// The points left, and nothing else.
    pub fn into_left(self) -> Grid<P>
        ensures { result ≡ self.left }
    {
        self.left.into_grid()
    }
}
