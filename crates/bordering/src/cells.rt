//! The lengths of each step of a contour along the runs that pass it, as their sum and number.
//! How long a contour is in all is told in `length`.
ghost use Rattle.std.specs.Prelude.{◌≡◌, ◌+◌, ◌-◌, ◌/◌, ◌<◌, ◌∷◌, [], ◌++◌, ℕ, List, length};
ghost use Rattle.measure_terms.specs.Runs as Runs;
ghost use Rattle.bordering.specs.Told.{flats, run_told};
ghost use Rattle.bordering.specs.Cells.{cell_with, HasRoom, HaveRoom, ArePassed, AreCells};

use crate::along::Along;
use crate::run::Run;
use crate::steps::step_at;
use shape_space::P2;

/// The lengths of a step along some runs.
#[derive(Clone, Copy)]
pub(crate) struct Cell {
    /// Their sum, in units.
    pub(crate) sum: u128,
    /// How many they are.
    pub(crate) many: u64,
}

impl Cell {
    /// No length.
    pub(crate) fn none() -> Cell
        ensures { result ≡ record { sum = 0; many = 0 } }
    {
        Cell { sum: 0, many: 0 }
    }

    // One length more.
    fn with(self, share: u64) -> Cell
        requires { HasRoom 1 self }
        ensures { result ≡ cell_with self share }
    {
        Cell {
            sum: self.sum + share as u128,
            many: self.many + 1,
        }
    }

    /// Their mean, rounded down, and 0 of none.
    pub(crate) fn mean(self) -> u128
        ensures { result ≡ self.sum / self.many }
    {
        if self.many == 0 {
            0
        } else {
            self.sum / self.many as u128
        }
    }
}

// Puts the lengths of the steps from a place up to before another.
fn add_shares(cells: &mut [Cell], points: &[P2], along: &mut Along, from: usize, to: usize)
    requires all { length cells.old ≡ length points.now }
    requires room { HaveRoom 1 cells.old }
    ensures passed { ArePassed (flats points.now) (run_told along.old.run) from to
        cells.old cells.new }
    ensures same { along.new.run ≡ along.old.run }
{
    let end = to.min(points.len());
    let start = from.min(end);
    for i in start..end {
        let share = along.share(step_at(points, i));
        cells[i] = cells[i].with(share);
    }
}

/// Puts the lengths of all steps along one run more.
pub(crate) fn add_run(cells: &mut [Cell], points: &[P2], run: Run)
    requires all { length cells.old ≡ length points.now }
    requires room { HaveRoom 2 cells.old }
    ensures { (runs : List Runs.Run) → AreCells (flats points.now) runs cells.old
        → AreCells (flats points.now) (runs ++ run_told run ∷ []) cells.new }
{
    let mut along = Along::new(run);
    let count = points.len();
    let (first, last) = (run.first as usize, run.last as usize);
    add_shares(cells, points, &mut along, first, last);
    add_shares(
        cells,
        points,
        &mut along,
        first.saturating_sub(count),
        last.saturating_sub(count),
    );
}
