//! What the borders of each object add up to, counted in one pass over them.
//! Labels come from the caller, one for each point of the box, and 0 for background.
ghost use Rattle.std.specs.Prelude.{◌≡◌, length, IfOk};
ghost use Rattle.shape_terms.specs.Points.{sides_of, box_count};
ghost use Rattle.measure_terms.specs.Objects.{label_at, object_bounds as object_bounds_of};
ghost use Rattle.bordering.specs.Told.{flat, border_told, all_borders, bounds_told, all_bounds};
ghost use Rattle.bordering.specs.OneMore.{no_bounds, HasBorderMore, HasRoom, HaveRoom, HasOneMore};

use crate::border::Border;
use crate::total::Total;
use shape_adj::Labels;
use shape_space::{NoMemory, P2, Sides};
use std::alloc::Global;

/// What the borders of an object add up to.
#[derive(Clone, Copy, Debug, PartialEq, Eq)]
pub struct Bounds {
    /// The length of its outer border, half a pixel outside the middles of its pixels.
    pub border: Total,
    /// The length of the borders of its holes, half a pixel inside.
    pub hole_border: Total,
    /// How many holes it has.
    pub holes: u64,
}

// Half a pixel once round.
const HALF_PIXEL: u128 = 2_828_427_124_746;

// The label of a point, and 0 outside the box.
fn label_at(sides: Sides<P2>, labels: &Labels, p: P2) -> u32
    requires { length labels.now ≡ box_count (sides_of (flat sides.lengths)) }
    ensures { result ≡ label_at (sides_of (flat sides.lengths)) labels.now (flat p) }
{
    if sides.inside(p) {
        labels.label(sides.raster(p))
    } else {
        0
    }
}

impl Bounds {
    /// No border.
    pub fn none() -> Bounds
        ensures { bounds_told result ≡ no_bounds }
    {
        Bounds {
            border: Total::none(),
            hole_border: Total::none(),
            holes: 0,
        }
    }

    // One border more.
    fn with(self, b: Border) -> Bounds
        requires { HasRoom (bounds_told self) }
        ensures { HasBorderMore self b result }
    {
        match b.start.side {
            0 => Bounds {
                border: self.border.with(b.length + HALF_PIXEL),
                ..self
            },
            2 => Bounds {
                hole_border: self.hole_border.with(b.length.saturating_sub(HALF_PIXEL)),
                holes: self.holes + 1,
                ..self
            },
            _ => self,
        }
    }
}

// Puts a border to those of the object with a label, where there is one.
fn add_border(all: &mut [Bounds], label: u32, b: Border)
    requires { HaveRoom (all_bounds all.old) }
    ensures { HasOneMore label (border_told b) (all_bounds all.old) (all_bounds all.new) }
{
    if label == 0 || label as usize > all.len() {
        return;
    }
    let i = label as usize - 1;
    all[i] = all[i].with(b);
}

/// What the borders of each of the objects 1 to `count` add up to, where an object has the borders whose contours begin at a
/// point with its label.
pub fn object_bounds(
    alloc: Global,
    sides: Sides<P2>,
    labels: &Labels,
    count: u32,
    borders: &[Border],
) -> Result<Vec<Bounds>, NoMemory>
    requires { length labels.now ≡ box_count (sides_of (flat sides.lengths)) }
    ensures { IfOk result (λ v. all_bounds v.items ≡ object_bounds_of
        (sides_of (flat sides.lengths)) labels.now count (all_borders borders.now)) }
{
    let mut all = vec![in alloc; Bounds::none(); count as usize]?;
    for b in borders {
        let label = label_at(sides, labels, b.start.point);
        add_border(all.as_mut_slice(), label, *b);
    }
    Ok(all)
}
