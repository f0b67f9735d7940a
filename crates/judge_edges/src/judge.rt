//! The judge: it goes through the cycles of the picture, and through the lines of each.
//! What a line says of its arc or its gap is tested in `holding`, `places`, `bend` and `fold`.
ghost use Rattle.std.specs.Prelude.{◌≡◌, ◌+◌, ◌-◌, ◌*◌, ◌<◌, ◌≤◌, ◌^◌, ◌↔◌, length, slice_index_or, IsTrue, IfOk, vec_capacity};
ghost use Rattle.std.specs.Bool.{OnTrue};
ghost use Rattle.shape_terms.specs.Limits.{most_round};
ghost use Rattle.shape_terms.specs.Covers.{arc, next_first, gap_run};
ghost use Rattle.shape_crack.specs.Terms.{crack_of};
ghost use Rattle.judge_edges.specs.Lines.{standard_of};
ghost use Rattle.judge_edges.specs.Arcs.{stretch_of as arc_stretch};
ghost use Rattle.judge_edges.specs.Gaps.{gap_of};
ghost use Rattle.edge_terms.specs.EdgeCycles.{AreEdgeCycles};
ghost use Rattle.edge_terms.specs.CycleLines.{open_path, IsFull, IsCycleHead, IsNextArc, IsNextGap, with_cycle, with_arc, with_gap, nothing_taken};
ghost use Rattle.shape_refute.specs.Places.{stretch_of};
ghost use Rattle.judge_edges.specs.Taken.{room_of};

use crate::arc::Arc;
use crate::corners::Corners;
use crate::cycles::{Cycles, all_cycles};
use crate::evidence::shows;
use crate::gap::EdgeGap;
use crate::holding::holds_arc;
use shape_crack::Crack;
use shape_grid::Grid;
use shape_refute::{Places, come_next};
use shape_space::{NoMemory, P2};
use std::alloc::Global;
use std::marker::Model;

/// A judge of the lines of the corner paths of one flat picture, as they come.
///
/// It keeps the corner paths of the picture, and of the one that was begun last the places of its arcs; it keeps no line. After a call has
/// answered false it says nothing more, and is only dropped.
#[derive(Drop)]
pub struct EdgeJudge {
    cycles: Cycles,
    // How many cycles were begun; and of the last of them:
    begun: u32,
    // how many arcs its line gives,
    declared: u32,
    // the places of those it was given,
    arcs: Vec<Places>,
    // how many gap lines it has.
    gaps: u32,
    // Room for the sheared points of a run.
    buffer: Vec<P2>,
}

impl Model for EdgeJudge {
    ghost use Rattle.std.specs.Prelude.{vec_capacity};
    ghost use Rattle.judge_edges.specs.EdgeState.{EdgeState, IsInStep, HasRoom, state_of};

    ghost Value = { EdgeState };

    ghost view = { λ j. state_of j.cycles j.begun j.declared j.arcs.items j.gaps };

    ghost invariant = { λ j. IsInStep j.cycles
        (state_of j.cycles j.begun j.declared j.arcs.items j.gaps).standing
        × HasRoom j.cycles (vec_capacity j.buffer) (vec_capacity j.arcs) };
}

impl EdgeJudge {
    /// A judge that has taken no line. It takes all its memory here.
    ///
    /// # Errors
    ///
    /// `NoMemory` where there is none for the corners.
    pub fn new(alloc: Global, grid: &Grid<P2>) -> Result<EdgeJudge, NoMemory>
        ensures cycles { IfOk result (λ j. AreEdgeCycles grid.now j.cycles) }
        ensures standing { IfOk result (λ j. j.standing ≡ nothing_taken) }
        ensures room { IfOk result (λ j. room_of j < 2 ^ 60) }
    {
        grid.is_picture();
        let cycles = all_cycles(alloc, grid)?;
        let greatest = cycles.greatest() as usize;
        let arcs = Vec::with_capacity(alloc, greatest)?;
        let buffer = Vec::with_capacity(alloc, 2 * greatest)?;
        Ok(EdgeJudge {
            cycles,
            begun: 0,
            declared: 0,
            arcs,
            gaps: 0,
            buffer,
        })
    }

    // The corner path of the cycle that was begun last.
    fn open(&self) -> &Corners
        requires { 0 < self.now.standing.begun }
        ensures { result.now ≡ open_path self.now.cycles self.now.standing }
    {
        self.cycles.cycle(self.begun - 1).path()
    }

    // Whether no cycle is begun and without all its lines.
    fn is_full(&self) -> bool
        ensures { IsTrue result ↔ IsFull self.now.standing }
    {
        self.begun == 0 || self.arcs.len() as u32 == self.declared && self.gaps == self.declared
    }

    /// Takes a `cycle` line, which gives the first crack, the number of cracks and that of arcs of the next cycle: whether it is good.
    pub fn begin(&mut self, start: Crack, steps: u32, arcs: u32) -> bool
        ensures answer { IsTrue result
            ↔ IsCycleHead self.old.cycles self.old.standing (crack_of start) steps arcs }
        ensures cycles { self.new.cycles ≡ self.old.cycles }
        ensures next { OnTrue result (self.new.standing ≡ with_cycle self.old.standing arcs) }
    {
        if !self.is_full() || self.begun == self.cycles.len() {
            return false;
        }
        let next = self.cycles.cycle(self.begun);
        if next.start() != start || next.path().len() != steps || arcs < 1 || arcs > steps {
            return false;
        }
        self.arcs.clear();
        self.begun += 1;
        self.declared = arcs;
        self.gaps = 0;
        true
    }

    /// Takes an `arc` line, which gives the next arc with a line that holds it: whether it is good.
    pub fn take_arc(&mut self, next: &Arc) -> bool
        ensures answer { IsTrue result
            ↔ IsNextArc self.old.cycles self.old.standing next.now.first next.now.last
            (standard_of next.now.line) }
        ensures cycles { self.new.cycles ≡ self.old.cycles }
        ensures next { OnTrue result
            (self.new.standing ≡ with_arc self.old.standing (arc_stretch next.now)) }
    {
        let places = Places {
            first: next.first,
            last: next.last,
        };
        if self.arcs.len() as u32 >= self.declared || self.gaps != 0 {
            return false;
        }
        let path = self.open();
        if !come_next(self.arcs.as_slice(), self.declared, path.len(), places) {
            return false;
        }
        if !holds_arc(path, next) {
            return false;
        }
        self.arcs.push_reserved(places);
        true
    }

    // The first place of the arc after one, which is one round on after the last.
    fn next_first(&self, k: usize) -> u32
        requires begun { 0 < self.now.standing.begun }
        requires place { k < length self.now.standing.stretches }
        ensures value { result
            ≡ next_first (open_path self.now.cycles self.now.standing)
            self.now.standing.stretches k }
    {
        let count = self.arcs.len();
        if k + 1 < count {
            self.arcs[k + 1].first
        } else {
            self.arcs[0].first + self.open().len()
        }
    }

    // The place after the last one of an arc.
    fn end(&self, k: usize) -> u32
        requires begun { 0 < self.now.standing.begun }
        requires place { k < length self.now.standing.stretches }
        ensures value { result
            ≡ (slice_index_or self.now.standing.stretches k
            (record { first = 0; last = 0 })).last + 1 }
        ensures within { result < 2 * length (open_path self.now.cycles self.now.standing) }
        ensures low { result < 2 * most_round }
    {
        self.open().is_corner_path();
        self.arcs[k].last + 1
    }

    // The places of the run of the next gap, where all arcs are given.
    fn gap_places(&self) -> Places
        requires begun { 0 < self.now.standing.begun }
        requires place { self.now.standing.gaps < length self.now.standing.stretches }
        ensures run { arc (open_path self.now.cycles self.now.standing) result.first result.last
            ≡ gap_run (open_path self.now.cycles self.now.standing) self.now.standing.stretches
            self.now.standing.gaps }
        ensures within { result.last < 2 * length (open_path self.now.cycles self.now.standing) }
        ensures low { result.last < 2 * most_round }
    {
        let k = self.gaps as usize;
        Places {
            first: self.next_first(k).saturating_sub(1),
            last: self.end(k),
        }
    }

    /// Takes a gap line, which gives the evidence for the next gap: whether it is good.
    pub fn take_gap(&mut self, gap: &EdgeGap) -> bool
        ensures answer { IsTrue result
            ↔ IsNextGap self.old.cycles self.old.standing (gap_of gap.now) }
        ensures cycles { self.new.cycles ≡ self.old.cycles }
        ensures next { OnTrue result (self.new.standing ≡ with_gap self.old.standing) }
    {
        if self.gaps >= self.declared || self.arcs.len() as u32 != self.declared {
            return false;
        }
        let run = self.gap_places();
        let path = self.cycles.cycle(self.begun - 1).path();
        if !shows(&mut self.buffer, path, run.first, run.last, gap) {
            return false;
        }
        self.gaps += 1;
        true
    }

    /// Whether each cycle of the picture has its lines.
    pub fn done(&self) -> bool
        ensures { IsTrue result ↔ ((self.now.standing.begun ≡ length self.now.cycles)
            × IsFull self.now.standing) }
    {
        self.begun == self.cycles.len() && self.is_full()
    }
}
