//! The judge: it follows the thinning of a picture, one event after the other.
//! Which point is next belongs to `shape_thin`; what an end is belongs to the rule.
ghost use Rattle.std.specs.Prelude.{◌≡◌, ◌<◌, ◌↔◌, [], ◌∷◌, ◌++◌, ℕ, List, length, IsTrue, IfOk};
ghost use Rattle.std.specs.Bool.{OnTrue};
ghost use Rattle.shape_terms.specs.Pictures.{Picture, object_points};
ghost use Rattle.shape_terms.specs.Thinning.{Rule, Event, Stage, ThinsTo};
ghost use Rattle.shape_terms.specs.Following.{IsNextEvent, AreAllEvents};
ghost use Rattle.shape_terms.specs.Distances.{AreDistances};
ghost use Rattle.shape_queue.specs.Events.{event_by};

use crate::uncounted::{begun, settled};
use shape_cells::Cells;
use shape_grid::Grid;
use shape_rules::EndRule;
use shape_space::NoMemory;
use shape_thin::Thinner;
use shape_topo::SimpleMask;
use std::alloc::Global;
use std::marker::Brand;
use std::sync::ledger::Blank;

/// A judge of the events of one picture's thinning, as they come.
///
/// It keeps the thinning after the events taken, and no event. After `event` has answered
/// false it says nothing more, and is only dropped.
#[derive(Drop)]
pub struct ThinJudge<P: SimpleMask> {
    thinner: Thinner<P>,
}

impl<P: SimpleMask> ThinJudge<P> {
    ghost use Rattle.shape_check.specs.EventStanding.{StandsFor, room_of};

    /// A judge that has taken no event, by whatever rule they come. The rule is to begin anew
    /// before the first.
    pub fn new(
        alloc: Global,
        grid: &Grid<P>,
        distances: Cells<u32>,
    ) -> Result<ThinJudge<P>, NoMemory>
        requires { AreDistances grid.now distances.values }
        ensures stands { IfOk result (λ j. (by : Rule) → StandsFor by grid.now [] by.opening j) }
        ensures room { IfOk result (λ j. room_of j ≡ length (object_points grid.now)) }
    {
        let thinner = begun::<P, Brand>(alloc, grid, distances, Blank::new(1))?;
        Ok(ThinJudge { thinner })
    }

    /// Takes the next event: whether the rule gives it after those that were taken.
    ///
    /// The point is deleted, or marked where `tips` is true. The rule is asked once, unless the
    /// point is not the next one.
    pub fn event(&mut self, p: P, tips: bool, rule: &mut dyn EndRule) -> Result<bool, NoMemory>
        ensures answer { let by = means rule.old in
            (X : Picture) (events : List Event) → StandsFor by X events (state rule.old) self.old
            → IfOk result (λ b. IsTrue b ↔ IsNextEvent by X events (event_by tips (P.coords p))) }
        ensures stands { let by = means rule.old in
            (X : Picture) (events : List Event) → StandsFor by X events (state rule.old) self.old
            → IfOk result (λ b. OnTrue b
            (StandsFor by X (events ++ event_by tips (P.coords p) ∷ []) (state rule.new)
            self.new)) }
        ensures room { IfOk result (λ b. OnTrue b (room_of self.new < room_of self.old)) }
        ensures same_rule { means rule.new ≡ means rule.old }
    {
        let Some(next) = self.thinner.next() else {
            return Ok(false);
        };
        if p != next.point {
            return Ok(false);
        }
        let marked = rule.keep(&next.facts);
        if marked != tips {
            return Ok(false);
        }
        settled::<P, Brand>(&mut self.thinner, &next, tips, Blank::new(1));
        Ok(true)
    }

    /// Whether no unmarked simple point is left.
    pub fn finished(&self) -> bool
        ensures { (by : Rule) (X : Picture) (events : List Event) (now : List ℕ)
            → StandsFor by X events now self.now → (IsTrue result ↔ AreAllEvents by X events) }
    {
        self.thinner.next().is_none()
    }

    /// The number of points left.
    pub fn left(&self) -> u32
        ensures { (by : Rule) (X : Picture) (events : List Event) (now : List ℕ)
            → StandsFor by X events now self.now
            → (s : Stage) → ThinsTo by X events s → result ≡ length (object_points s.left) }
    {
        self.thinner.left().count()
    }
}
