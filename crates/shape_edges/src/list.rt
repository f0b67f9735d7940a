//! The cover of a corner path, as a value of its own.
//! Another way of keeping the arcs and the gaps changes nothing outside this file.
ghost use Rattle.std.specs.Prelude.{◌≡◌, ◌<◌, ◌^◌, length, map};
ghost use Rattle.edge_terms.specs.EdgeCovers.{arc_in};
ghost use Rattle.judge_edges.specs.Lines.{standard_of};
ghost use Rattle.judge_edges.specs.Gaps.{gap_of};
ghost use Rattle.judge_edges.specs.Arcs.{stretch_of};
ghost use Rattle.shape_edges.specs.Entries.{found_of};

use crate::entry::Entry;
use judge_edges::{Arc, EdgeGap};
use std::marker::Model;

/// The maximal straight runs of a corner path by rising places, each with a standard line and with the evidence for the gap after it.
#[derive(Drop)]
pub struct EdgeCover {
    steps: u32,
    entries: Vec<Entry>,
}

impl Model for EdgeCover {
    ghost use Rattle.std.specs.Prelude.{◌<◌, ◌^◌, length, map};
    ghost use Rattle.edge_terms.specs.EdgeCovers.{EdgeFound};
    ghost use Rattle.shape_edges.specs.Entries.{found_of};

    ghost Value = { EdgeFound };

    ghost view = { λ c. record { steps = c.steps; arcs = map found_of c.entries.items } };

    ghost invariant = { λ c. length c.entries.items < 2 ^ 32 };
}

impl EdgeCover {
    // The cover of these entries.
    pub(crate) fn from_entries(steps: u32, entries: Vec<Entry>) -> EdgeCover
        requires { length entries.items < 2 ^ 32 }
        ensures { result ≡ record { steps = steps; arcs = map found_of entries.items } }
    {
        EdgeCover { steps, entries }
    }

    /// The number of cracks of the cycle.
    pub fn steps(&self) -> u32
        ensures { result ≡ self.now.steps }
    {
        self.steps
    }

    /// The number of arcs, and of gaps.
    pub fn len(&self) -> u32
        ensures { result ≡ length self.now.arcs }
    {
        self.entries.len() as u32
    }

    /// The arc at a place of the cover, from 0 on.
    pub fn arc(&self, k: u32) -> Arc
        requires { k < length self.now.arcs }
        ensures places { stretch_of result ≡ (arc_in self.now.arcs k).stretch }
        ensures line { standard_of result.line ≡ (arc_in self.now.arcs k).line }
    {
        self.entries[k as usize].arc
    }

    /// Why the gap after the arc at a place of the cover is not straight, from 0 on; the last gap leads to the first arc.
    pub fn gap(&self, k: u32) -> EdgeGap
        requires { k < length self.now.arcs }
        ensures { gap_of result ≡ (arc_in self.now.arcs k).gap }
    {
        self.entries[k as usize].gap
    }
}
