//! The steps of a thinning where nobody asks how many points they test: the counter ends with the call.
//! What a step does belongs to `shape_thin`.
ghost use Rattle.std.specs.Prelude.{◌≡◌, ◌+◌, [], length, IfOk};
ghost use Rattle.shape_terms.specs.Pictures.{object_points};
ghost use Rattle.shape_terms.specs.Thinning.{Rule};
ghost use Rattle.shape_terms.specs.Distances.{AreDistances};
ghost use Rattle.shape_thin.specs.Standing.{StandsFor, room_of, IsNextOf, GoesOn};

use shape_cells::Cells;
use shape_grid::Grid;
use shape_space::{NoMemory, Steps};
use shape_thin::{Next, Thinner};
use shape_topo::SimpleMask;
use std::alloc::Global;
use std::sync::ledger::{Blank, Ledger};

// A thinning before its first event.
pub(crate) fn begun<P: SimpleMask, L: Ledger>(
    alloc: Global,
    grid: &Grid<P>,
    distances: Cells<u32>,
    blank: Blank,
) -> Result<Thinner<P>, NoMemory>
    requires name { blank.name ≡ L.name }
    requires parts { blank.parts ≡ L.parts }
    requires whole { blank.parts ≡ 1 }
    requires distances { AreDistances grid.now distances.values }
    ensures stands { IfOk result (λ t. (by : Rule) → StandsFor by grid.now [] by.opening t) }
    ensures room { IfOk result (λ t. room_of t ≡ length (object_points grid.now)) }
{
    let mut steps = Steps::<L>::new(blank);
    Thinner::begin(alloc, grid, distances, &mut steps)
}

// Goes on with a thinning after its next point was marked, or is deleted.
pub(crate) fn settled<P: SimpleMask, L: Ledger>(
    thinner: &mut Thinner<P>,
    next: &Next<P>,
    tips: bool,
    blank: Blank,
)
    requires name { blank.name ≡ L.name }
    requires parts { blank.parts ≡ L.parts }
    requires whole { blank.parts ≡ 1 }
    requires next { IsNextOf thinner.old next.now (P.coords next.now.point) }
    ensures stands { GoesOn thinner.old next.now (P.coords next.now.point) tips thinner.new }
    ensures room { room_of thinner.new + 1 ≡ room_of thinner.old }
{
    let mut steps = Steps::<L>::new(blank);
    thinner.settle(next, tips, &mut steps);
}
