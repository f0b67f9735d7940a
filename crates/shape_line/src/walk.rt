//! The walk round a contour from maximal segment to maximal segment, which is its tangential cover.
//! That the segments are all follows from the evidence for the gaps between them.
ghost use Rattle.std.specs.Prelude.{◌≡◌, ◌*◌, ◌<◌, ◌≤◌, ◌^◌, IfOk, length, map};
ghost use Rattle.shape_terms.specs.Limits.{most_round};
ghost use Rattle.shape_terms.specs.Straight.{IsStraight};
ghost use Rattle.shape_terms.specs.RunWalks.{IsStart};
ghost use Rattle.shape_line.specs.Found.{IsCoverOf};
ghost use Rattle.shape_line.specs.Entries.{stretch_of, found_of};
ghost use Rattle.shape_line.specs.Searches.{IsReach, HasPassed};

use crate::entry::Entry;
use crate::list::Cover;
use crate::push::put_last;
use crate::reach::{Reach, longest_from};
use crate::start::next_start;
use shape_crack::Contour;
use shape_space::NoMemory;
use std::alloc::Global;

// A stretch that the walk may begin with: the first maximal one.
fn first_reach(contour: &Contour) -> Reach
    ensures reach { IsReach contour.now.points result }
    ensures start { IsStart IsStraight contour.now.points (stretch_of result.stretch) }
{
    let n = contour.len();
    let reach = longest_from(contour, 0);
    let before = longest_from(contour, n - 1);
    if before.stretch.last < reach.stretch.last + n {
        reach
    } else {
        let start = next_start(contour, &reach);
        longest_from(contour, start.first)
    }
}

// Goes on to the next stretch, and puts the one that is left last.
#[inline(always)]
fn go_on(contour: &Contour, entries: &mut Vec<Entry>, reach: Reach) -> Result<Reach, NoMemory>
    requires low { reach.stretch.first < 2 * most_round }
    requires reach { IsReach contour.now.points reach }
    ensures { IfOk result (HasPassed contour.now.points reach entries.old.items entries.new.items) }
{
    contour.is_closed_path();
    let start = next_start(contour, &reach);
    let entry = Entry {
        stretch: reach.stretch,
        grown: reach.grown,
        bend: start.bend,
    };
    put_last(entries, entry)?;
    Ok(longest_from(contour, start.first))
}

// The entries of the stretches from the first one on, once round the contour.
fn go_round(alloc: Global, contour: &Contour, first: Reach) -> Result<Vec<Entry>, NoMemory>
    requires reach { IsReach contour.now.points first }
    requires start { IsStart IsStraight contour.now.points (stretch_of first.stretch) }
    ensures cover { IfOk result (λ v. IsCoverOf contour.now.points (map found_of v.items)) }
    ensures few { IfOk result (λ v. length v.items < 2 ^ 32) }
{
    let round = first.stretch.first + contour.len();
    let mut reach = first;
    let mut entries = Vec::new(alloc);
    while reach.stretch.first < round {
        reach = go_on(contour, &mut entries, reach)?;
    }
    Ok(entries)
}

/// The tangential cover of a contour: its maximal straight segments by rising places, each with a naive line, and for each gap between
/// one and the next the evidence, for both axes, that it is not straight.
///
/// From the place after a segment one of each axis is grown backward, which gives the place where the next begins; from there one of each
/// axis is grown on. So it takes time by the sum of the lengths of the segments, a fixed number of operations for each of their points.
///
/// # Errors
///
/// `NoMemory` where there is none for the segments.
pub fn cover(alloc: Global, contour: &Contour) -> Result<Cover, NoMemory>
    ensures { IfOk result (IsCoverOf contour.now.points) }
{
    let first = first_reach(contour);
    let entries = go_round(alloc, contour, first)?;
    Ok(Cover::from_entries(entries))
}
