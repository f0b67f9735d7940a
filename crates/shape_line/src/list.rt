//! The cover of a contour, as a value of its own.
//! Another way of keeping the segments and the gaps changes nothing outside this file.
ghost use Rattle.std.specs.Prelude.{◌≡◌, ◌<◌, ◌^◌, length, map, pos};
ghost use Rattle.shape_refute.specs.Terms.{naive_of};
ghost use Rattle.shape_line.specs.Found.{found_at, IsShownBy};
ghost use Rattle.shape_refute.specs.Evidences.{evidence_of};
ghost use Rattle.shape_terms.specs.Points.{coordinate};
ghost use Rattle.shape_refute.specs.PairTerms.{pairs_of};
ghost use Rattle.shape_line.specs.SegmentTerms.{points_of};
ghost use Rattle.shape_line.specs.Entries.{stretch_of, found_of};

use crate::entry::Entry;
use crate::gap::Gap;
use crate::segment::Segment;
use crate::stretch::Stretch;
use shape_refute::Bounds;
use std::marker::Model;

/// The maximal straight segments of a contour by rising places, each with a line and with the evidence for the gap after it.
#[derive(Drop)]
pub struct Cover {
    entries: Vec<Entry>,
}

impl Model for Cover {
    ghost use Rattle.std.specs.Prelude.{◌<◌, ◌^◌, List, length, map};
    ghost use Rattle.shape_line.specs.Found.{Found};
    ghost use Rattle.shape_line.specs.Entries.{found_of};

    ghost Value = { List Found };

    ghost view = { λ c. map found_of c.entries.items };

    ghost invariant = { λ c. length c.entries.items < 2 ^ 32 };
}

// Two pairs of places that show the line of an entry to be least.
fn shown_by(entry: &Entry) -> Bounds
    ensures { IsShownBy (found_of entry.now) (pairs_of result) }
{
    entry.grown.bounds()
}

impl Cover {
    // The cover of these entries.
    pub(crate) fn from_entries(entries: Vec<Entry>) -> Cover
        requires { length entries.items < 2 ^ 32 }
        ensures { result ≡ map found_of entries.items }
    {
        Cover { entries }
    }

    // The entry at a place.
    fn entry(&self, k: u32) -> &Entry
        requires { k < length self.now }
        ensures { found_at self.now k ≡ found_of result.now }
    {
        &self.entries[k as usize]
    }

    /// The number of segments, and of gaps.
    pub fn len(&self) -> u32
        ensures { result ≡ length self.now }
    {
        self.entries.len() as u32
    }

    /// The segment at a place of the cover, from 0 on.
    pub fn segment(&self, k: u32) -> Stretch
        requires { k < length self.now }
        ensures places { stretch_of result ≡ (found_at self.now k).stretch }
        ensures axis { result.line.axis ≡ (found_at self.now k).axis }
        ensures line { naive_of 2 result.line ≡ (found_at self.now k).line }
        ensures flat { coordinate result.line.a 2 ≡ pos 0 }
    {
        self.entries[k as usize].stretch
    }

    /// The segment as it was grown, point by point, at a place of the cover, from 0 on.
    pub fn grown(&self, k: u32) -> &Segment
        requires { k < length self.now }
        ensures axis { result.now.axis ≡ (found_at self.now k).axis }
        ensures points { points_of result.now ≡ (found_at self.now k).grown }
    {
        &self.entries[k as usize].grown
    }

    /// Two pairs of places, counted from the first place of the segment at a place of the cover, that show its line to be least.
    pub fn bounds(&self, k: u32) -> Bounds
        requires { k < length self.now }
        ensures { IsShownBy (found_at self.now k) (pairs_of result) }
    {
        shown_by(self.entry(k))
    }

    /// Why the gap after the segment at a place of the cover is not straight, from 0 on; the last gap leads to the first segment.
    pub fn gap(&self, k: u32) -> Gap
        requires { k < length self.now }
        ensures x { evidence_of result.x ≡ (found_at self.now k).x }
        ensures y { evidence_of result.y ≡ (found_at self.now k).y }
    {
        self.entries[k as usize].bend.gap()
    }
}
