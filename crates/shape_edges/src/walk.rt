//! The walk round a corner path from maximal run to maximal run, which is its cover.
//! That the runs are all follows from the evidence for the gaps between them.
ghost use Rattle.std.specs.Prelude.{◌<◌, ◌*◌, ◌^◌, IfOk, length, map};
ghost use Rattle.shape_terms.specs.Limits.{most_round};
ghost use Rattle.shape_terms.specs.Contours.{IsCrack};
ghost use Rattle.shape_terms.specs.RunWalks.{IsStart};
ghost use Rattle.edge_terms.specs.EdgeCovers.{IsEdgeCover, IsEdgeCoverFrom};
ghost use Rattle.edge_terms.specs.EdgeStraight.{IsEdgeStraight};
ghost use Rattle.shape_crack.specs.Terms.{crack_of};
ghost use Rattle.judge_edges.specs.Arcs.{stretch_of};
ghost use Rattle.shape_edges.specs.Entries.{found_of};
ghost use Rattle.shape_edges.specs.Searches.{IsReach, IsPassed, HasPassed};

use crate::entry::Entry;
use crate::list::EdgeCover;
use crate::push::put_last;
use crate::reach::longest_from;
use crate::start::next_start;
use judge_edges::{Arc, Corners, corner_path};
use shape_crack::Crack;
use shape_grid::Grid;
use shape_space::{NoMemory, P2};
use std::alloc::Global;

/// An arc that the walk has left, and the next one.
#[derive(Clone, Copy)]
pub struct Passed {
    /// The arc, with the evidence for the gap after it.
    pub entry: Entry,
    /// The next one.
    pub next: Arc,
}

// Goes from an arc to the next one.
fn pass(path: &Corners, reach: Arc) -> Passed
    requires low { reach.first < 2 * most_round }
    requires reach { IsReach path.now reach }
    ensures { IsPassed path.now reach result }
{
    path.is_corner_path();
    let start = next_start(path, &reach);
    let next = longest_from(path, start.first);
    Passed {
        entry: Entry {
            arc: reach,
            gap: start.gap,
        },
        next,
    }
}

// An arc that the walk may begin with: the first maximal one.
fn first_reach(path: &Corners) -> Arc
    ensures reach { IsReach path.now result }
    ensures start { IsStart IsEdgeStraight path.now (stretch_of result) }
{
    let n = path.len();
    let reach = longest_from(path, 0);
    let before = longest_from(path, n - 1);
    if before.last < reach.last + n {
        reach
    } else {
        pass(path, reach).next
    }
}

// Goes on to the next arc, and puts the one that is left last.
fn go_on(path: &Corners, entries: &mut Vec<Entry>, reach: Arc) -> Result<Arc, NoMemory>
    requires low { reach.first < 2 * most_round }
    requires reach { IsReach path.now reach }
    ensures { IfOk result (HasPassed path.now reach entries.old.items entries.new.items) }
{
    let passed = pass(path, reach);
    let next = passed.next;
    put_last(entries, passed.entry)?;
    Ok(next)
}

// The entries of the arcs from the first one on, once round the path.
fn go_round(alloc: Global, path: &Corners, first: Arc) -> Result<Vec<Entry>, NoMemory>
    requires reach { IsReach path.now first }
    requires start { IsStart IsEdgeStraight path.now (stretch_of first) }
    ensures cover { IfOk result (λ v. IsEdgeCover path.now (map found_of v.items)) }
    ensures few { IfOk result (λ v. length v.items < 2 ^ 32) }
{
    let round = first.first + path.len();
    let mut reach = first;
    let mut entries = Vec::new(alloc);
    while reach.first < round {
        reach = go_on(path, &mut entries, reach)?;
    }
    Ok(entries)
}

/// The cover of the corner path of the cycle that begins with a crack: its maximal straight runs by rising places, each with a standard
/// line, and for each gap between one and the next the evidence that it is not straight.
///
/// From the place after a run one is grown backward, which gives the place where the next begins; from the place before that one is grown
/// on, which gives the evidence, and one from the place itself. So it takes time by the sum of the lengths of the runs, a fixed number of
/// operations for each of their corners.
///
/// # Errors
///
/// `NoMemory` where there is none for the corners or the arcs.
pub fn edge_cover(alloc: Global, grid: &Grid<P2>, start: Crack) -> Result<EdgeCover, NoMemory>
    requires { IsCrack grid.now (crack_of start) }
    ensures { IfOk result (IsEdgeCoverFrom grid.now (crack_of start)) }
{
    let path = corner_path(alloc, grid, start)?;
    let first = first_reach(&path);
    let entries = go_round(alloc, &path, first)?;
    Ok(EdgeCover::from_entries(path.len(), entries))
}
