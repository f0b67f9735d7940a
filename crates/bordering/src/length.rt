//! The length of a contour by the runs of its segments.
//! What a step of it gets of a run is told in `cells`.
ghost use Rattle.std.specs.Prelude.{◌≡◌, ◌≤◌, ◌^◌, [], IfOk, OnOk};
ghost use Rattle.measure_terms.specs.Lengths.{contour_length};
ghost use Rattle.bordering.specs.Told.{flats, runs_told};
ghost use Rattle.bordering.specs.Cells.{HaveRoom, AreCells, all_means};

use crate::cells::{Cell, add_run};
use crate::run::Run;
use shape_space::{NoMemory, P2};

// A cell for each point, with no length.
fn clear_cells(cells: &mut Vec<Cell>, points: &[P2]) -> Result<(), NoMemory>
    ensures { OnOk result (AreCells (flats points.now) [] cells.new.items) }
{
    cells.clear();
    for _i in 0..points.len() {
        cells.push(Cell::none())?;
    }
    Ok(())
}

// Puts the lengths of all steps along all runs.
fn add_runs(cells: &mut Vec<Cell>, points: &[P2], runs: &[Run])
    requires { AreCells (flats points.now) [] cells.old.items }
    ensures { AreCells (flats points.now) (runs_told runs.now) cells.new.items }
{
    for run in runs {
        add_run(cells.as_mut_slice(), points, *run);
    }
}

// The sum of the means of all steps.
fn sum_of_means(cells: &[Cell]) -> u128
    requires { HaveRoom 0 cells.now }
    ensures value { result ≡ all_means cells.now }
    ensures small { result ≤ 2 ^ 99 }
{
    let mut sum: u128 = 0;
    for cell in cells {
        sum += cell.mean();
    }
    sum
}

/// The length of a contour with these points and runs, in units.
///
/// What the cells hold before does not count.
pub(crate) fn contour_length(
    cells: &mut Vec<Cell>,
    points: &[P2],
    runs: &[Run],
) -> Result<u128, NoMemory>
    ensures value { IfOk result (λ l. l ≡ contour_length (flats points.now) (runs_told runs.now)) }
    ensures small { IfOk result (λ l. l ≤ 2 ^ 99) }
{
    clear_cells(cells, points)?;
    add_runs(cells, points, runs);
    Ok(sum_of_means(cells))
}
