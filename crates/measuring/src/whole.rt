//! The numbers of the whole object of a picture: its points together are one set.
//! They are counted as those of one label.
ghost use Rattle.std.specs.Prelude.{IfOk};
ghost use Rattle.measure_terms.specs.Whole.{IsWhole};
ghost use Rattle.measuring.specs.MinkowskiTold.{told};

use crate::numbers::Minkowski;
use crate::numbers_of_objects::numbers;
use shape_adj::Pairing;
use shape_grid::Grid;
use shape_space::NoMemory;
use std::alloc::Global;

/// The Euler number of the object of a picture, and how many steps lead out of it.
///
/// It takes no more than some hundred bytes.
pub fn whole_minkowski<P: Pairing>(alloc: Global, grid: &Grid<P>) -> Result<Minkowski, NoMemory>
    ensures { IfOk result (λ m. IsWhole grid.now (told m)) }
{
    grid.is_picture();
    let all = numbers(alloc, grid.sides(), grid, 1)?;
    Ok(all[0])
}
