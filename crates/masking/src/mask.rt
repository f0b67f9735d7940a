//! The masks, and what each is made of.
//! A further mask is a variant and an arm of each `match`.
ghost use Rattle.std.specs.Prelude.{◌≡◌, ◌≢◌, IfOk, MatchOption};
ghost use Rattle.masking.specs.Words.{mask_word};

use crate::bits::bits;
use crate::distances::{depths, greys};
use crate::squares::square_bytes;
use crate::thickness::{thickness_depths, thickness_greys};
use crate::voxels::voxels;
use report_lines::{Heading, Making, Seen};
use shape_space::{NoMemory, P2, P3};
use std::alloc::Global;

/// What is shown of a report.
#[derive(Clone, Copy, Debug, PartialEq, Eq)]
pub enum Mask {
    /// The object points that are not deleted.
    Skeleton,
    /// The object points.
    Object,
    /// The distances to the background.
    Distances,
    /// The squared distances to the background.
    Squares,
    /// The diameters of the greatest balls of the object.
    Thickness,
}

// The mask with this word.
pub(crate) fn mask_called(word: &[u8]) -> Option<Mask>
    ensures { MatchOption result ((m : Mask) → word.now ≢ mask_word m)
        (λ m. word.now ≡ mask_word m) }
{
    if word == b"skeleton".as_slice() {
        return Some(Mask::Skeleton);
    }
    if word == b"object".as_slice() {
        return Some(Mask::Object);
    }
    if word == b"distances".as_slice() {
        return Some(Mask::Distances);
    }
    if word == b"squares".as_slice() {
        return Some(Mask::Squares);
    }
    if word == b"thickness".as_slice() {
        return Some(Mask::Thickness);
    }
    None
}

impl Mask {
    ghost use Rattle.masking.specs.Masks.{mask_bytes};

    // The bytes of the mask, of what the report of a flat picture says.
    fn flat_bytes(&self, alloc: Global, seen: &Seen<P2>) -> Result<Vec<u8>, NoMemory>
        ensures { IfOk result (λ v. v.items ≡ mask_bytes self.now 2 seen.now) }
    {
        match self {
            Mask::Skeleton => bits(alloc, seen.left()),
            Mask::Object => bits(alloc, seen.object()),
            Mask::Distances => greys(alloc, seen.object(), seen.squares()),
            Mask::Squares => square_bytes(alloc, seen.squares()),
            Mask::Thickness => thickness_greys(alloc, seen),
        }
    }

    // The bytes of the mask, of what the report of a volume says.
    fn solid_bytes(&self, alloc: Global, seen: &Seen<P3>) -> Result<Vec<u8>, NoMemory>
        ensures { IfOk result (λ v. v.items ≡ mask_bytes self.now 3 seen.now) }
    {
        match self {
            Mask::Skeleton => voxels(alloc, seen.left()),
            Mask::Object => voxels(alloc, seen.object()),
            Mask::Distances => depths(alloc, seen.squares()),
            Mask::Squares => square_bytes(alloc, seen.squares()),
            Mask::Thickness => thickness_depths(alloc, seen),
        }
    }
}

impl Making for Mask {
    ghost use Rattle.report_lines.specs.Made.{exactly};
    ghost use Rattle.masking.specs.Masks.{mask_bytes};

    type Flat = Seen<P2>;

    type Solid = Seen<P3>;

    ghost makes = { λ mask. exactly (mask_bytes mask) };

    fn begin_flat(&self, alloc: Global, heading: &Heading<P2>) -> Result<Seen<P2>, NoMemory> {
        Seen::new(alloc, heading)
    }

    fn make_flat(&self, alloc: Global, seen: Seen<P2>) -> Result<Vec<u8>, NoMemory> {
        self.flat_bytes(alloc, &seen)
    }

    fn begin_solid(&self, alloc: Global, heading: &Heading<P3>) -> Result<Seen<P3>, NoMemory> {
        Seen::new(alloc, heading)
    }

    fn make_solid(&self, alloc: Global, seen: Seen<P3>) -> Result<Vec<u8>, NoMemory> {
        self.solid_bytes(alloc, &seen)
    }
}
