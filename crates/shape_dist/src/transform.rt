//! The survey of a picture: a nearest background point of each object point, and all least squared distances by raster number.
//! Both are told by the same cells, which are gone when it is made. What is wanted of an object point besides is found here too.
ghost use Rattle.std.specs.Prelude.{◌≡◌, ◌<◌, ℕ, IfOk, length};
ghost use Rattle.shape_terms.specs.Points.{box_count, raster_point};
ghost use Rattle.shape_terms.specs.Pictures.{Least};
ghost use Rattle.shape_terms.specs.FramedBox.{framed_sides, framed_point};
ghost use Rattle.shape_terms.specs.Distances.{AreDistances, AreFeatures};
ghost use Rattle.shape_dist.specs.Keepings.{point_keeping};
ghost use Rattle.shape_dist.specs.Spreads.{AreNearestOn};

use crate::axes::cells_of;
use crate::features::Features;
use crate::found::Found;
use shape_cells::Cells;
use shape_grid::Grid;
use shape_space::{NoMemory, Point};
use std::alloc::Global;

/// What a distance transform tells of a picture.
#[derive(Drop)]
pub struct Surveyed<P: Point> {
    /// A nearest background point of each object point.
    pub features: Features<P>,
    /// The squared distance of each object point by its raster number. A point of the background has none, and no cell of
    /// its own where there are few object points.
    pub distances: Cells<u32>,
}

// What was found of the point of the box with a raster number.
#[inline]
fn found_at<P: Point>(grid: &Grid<P>, cells: &Cells<Found>, i: u32) -> Found
    requires inside { i < box_count grid.now.sides }
    requires long { length cells.now.values ≡ box_count (framed_sides grid.now.sides) }
    requires near { AreNearestOn point_keeping grid.now
        (box_count (framed_sides grid.now.sides)) cells.now.values }
    ensures { Least grid.now (raster_point grid.now.sides i)
        (framed_point grid.now.sides result.q) result.s }
{
    let sides = grid.sides();
    cells.get(sides.framed_number(sides.unraster(i)))
}

// What these cells tell of each object point.
fn told<P: Point>(
    alloc: Global,
    grid: &Grid<P>,
    cells: &Cells<Found>,
) -> Result<Surveyed<P>, NoMemory>
    requires long { length cells.now.values ≡ box_count (framed_sides grid.now.sides) }
    requires near { AreNearestOn point_keeping grid.now
        (box_count (framed_sides grid.now.sides)) cells.now.values }
    ensures features { IfOk result (λ s. AreFeatures grid.now s.features) }
    ensures distances { IfOk result (λ s. AreDistances grid.now s.distances.values) }
{
    grid.is_picture();
    let sides = grid.sides();
    let mut numbers = Vec::with_capacity(alloc, grid.count() as usize)?;
    let mut distances = Cells::new(alloc, grid.values().copy(alloc)?)?;
    let mut next = 0;
    while let Some(i) = grid.first_from(next) {
        let found = found_at(grid, cells, i);
        numbers.push(found.q)?;
        distances.set(i, found.s);
        next = i + 1;
    }
    let features = Features { sides, numbers };
    Ok(Surveyed {
        features,
        distances,
    })
}

/// Surveys a picture.
///
/// Its time is linear in the number of points of the framed box. Beside what it answers, of eight bytes for each object point where these are few and
/// else four for each of them and for each point of the box, it takes eight for each object point, or for each framed point where more than a quarter of
/// them are object, and some bits for each framed point. All of that is free when it ends.
pub fn survey<P: Point>(alloc: Global, grid: &Grid<P>) -> Result<Surveyed<P>, NoMemory>
    ensures features { IfOk result (λ s. AreFeatures grid.now s.features) }
    ensures distances { IfOk result (λ s. AreDistances grid.now s.distances.values) }
{
    let cells = cells_of::<P, Found>(alloc, grid)?;
    told(alloc, grid, &cells)
}
