//! Local thickness, by balls from the greatest to the smallest: the first that holds a point is the greatest that does.
//! How a ball is painted stands in `paint.rt`, and which ones need not be in `depths.rt`.
ghost use Rattle.std.specs.Prelude.{◌≡◌, ◌<◌, IfOk, OnOk, length};
ghost use Rattle.shape_terms.specs.Points.{sides_of, box_count, raster_point};
ghost use Rattle.shape_thickness.specs.Greatest.{AreGreatest};
ghost use Rattle.shape_thickness.specs.Painting.{IsPainted, IsNearPlace, IsKnown};

use crate::canvas::Canvas;
use crate::centres::{Centre, centres};
use crate::depths::Depths;
use crate::paint::paint_ball;
use shape_grid::Grid;
use shape_space::{NoMemory, Point, Sides};
use std::alloc::Global;

// So many rows are painted for each point of the box until the painted places are looked at again, which takes about as long.
const ROWS: u64 = 2;

// Paints the ball of a centre, if some of it may be bare, and looks at the painted places again where many rows were painted since.
fn paint_centre<P: Point>(
    alloc: Global,
    sides: &Sides<P>,
    canvas: &mut Canvas,
    depths: &mut Depths<P>,
    rows: &mut u64,
    centre: Centre,
) -> Result<(), NoMemory>
    requires place { centre.place < box_count (sides_of (P.coords sides.now.lengths)) }
    requires filled { length canvas.old ≡ box_count (sides_of (P.coords sides.now.lengths)) }
    requires known { IsKnown (sides_of (P.coords sides.now.lengths)) depths.old canvas.old }
    ensures painted { OnOk result (IsPainted
        (IsNearPlace (sides_of (P.coords sides.now.lengths))
        (raster_point (sides_of (P.coords sides.now.lengths)) centre.place) centre.s)
        (IsNearPlace (sides_of (P.coords sides.now.lengths))
        (raster_point (sides_of (P.coords sides.now.lengths)) centre.place) centre.s)
        centre.s canvas.old canvas.new) }
    ensures known { OnOk result
        (IsKnown (sides_of (P.coords sides.now.lengths)) depths.new canvas.new) }
{
    if depths.hold(centre.place, centre.s) {
        return Ok(());
    }
    let more = paint_ball(canvas, sides, sides.unraster(centre.place), centre.s);
    *rows = rows.saturating_add(u64::from(more));
    if *rows >= ROWS * u64::from(sides.count()) {
        *depths = Depths::of(alloc, sides, canvas)?;
        *rows = 0;
    }
    Ok(())
}

/// Of each point of the box, in raster order, the greatest square of a ball that holds it, where `squares` has one for each object point.
///
/// It takes sixteen bytes for each object point and eight for each point of the box, and four of them are handed out.
pub fn greatest<P: Point>(
    alloc: Global,
    grid: &Grid<P>,
    squares: &[u32],
) -> Result<Vec<u32>, NoMemory>
    requires filled { length squares.now ≡ box_count grid.now.sides }
    ensures { IfOk result (λ v. AreGreatest grid.now squares.now v.items) }
{
    let sides = grid.sides();
    let centres = centres(alloc, grid, squares)?;
    let mut canvas = Canvas::new(alloc, sides.count())?;
    let mut depths = Depths::of(alloc, &sides, &canvas)?;
    let mut rows = 0;
    for k in (0..centres.len()).rev() {
        let centre = centres[k];
        paint_centre(alloc, &sides, &mut canvas, &mut depths, &mut rows, centre)?;
    }
    Ok(canvas.into_values())
}
