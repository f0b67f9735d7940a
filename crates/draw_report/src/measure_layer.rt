//! The layer of measures: the lines of each object, in the order of the table.
//! What the lines are is told in `measure_lines`.
ghost use Rattle.std.specs.Prelude.{◌≡◌, ◌<◌, ◌+◌, ◌^◌, ◌++◌, nat_abs, OnOk};
ghost use Rattle.shape_terms.specs.Points.{sides_of};
ghost use Rattle.drawing.specs.Seen.{flat};
ghost use Rattle.draw_report.specs.MeasureLines.{object_lines, lines_text, opening, line_size, measure_layer};
ghost use Rattle.draw_report.specs.Measured.{shown_at};
ghost use Rattle.draw_report.specs.MeasuresTold.{measured_told};

use crate::axes::axes_at;
use crate::measure_lines::{put_axes, put_feret, put_width};
use crate::measured::{Measured, feret_at, hull_at, moments_at};
use drawing::{Svg, scale_of};
use shape_space::{NoMemory, P2, Sides};

// Puts the lines of the object with a place.
fn put_object(measured: &Measured, i: usize, svg: &mut Svg) -> Result<(), NoMemory>
    requires { i < 2 ^ 63 }
    ensures { OnOk result (svg.new
        ≡ svg.old ++ object_lines (i + 1) (shown_at (measured_told measured.now) i)) }
{
    let moments = moments_at(measured.moments.as_slice(), i);
    let axes = axes_at(measured.axes.as_slice(), i);
    put_axes(i + 1, &axes, &moments, svg)?;
    let hull = hull_at(measured.hulls.as_slice(), i);
    put_width(i + 1, &hull, &moments, svg)?;
    put_feret(i + 1, feret_at(measured.ferets.as_slice(), i), svg)?;
    Ok(())
}

// Puts the lines of so many objects.
fn put_all(measured: &Measured, count: u32, svg: &mut Svg) -> Result<(), NoMemory>
    ensures { OnOk result (svg.new
        ≡ svg.old ++ lines_text (shown_at (measured_told measured.now)) count) }
{
    for i in 0..count {
        put_object(measured, i as usize, svg)?;
    }
    Ok(())
}

// Opens the layer.
fn open(sides: Sides<P2>, svg: &mut Svg) -> Result<(), NoMemory>
    ensures { OnOk result (svg.new ≡ svg.old
        ++ opening (line_size (nat_abs sides.lengths.x) (nat_abs sides.lengths.y))) }
{
    svg.put(b"<g class=\"measures\" transform=\"scale(.0005)\" stroke-width=\"")?;
    svg.count(4000 / scale_of(sides))?;
    svg.put(b"\">\n")?;
    Ok(())
}

/// Puts the lines of all objects, in the order of the rows.
pub(crate) fn put_measures(
    sides: Sides<P2>,
    measured: &Measured,
    count: u32,
    svg: &mut Svg,
) -> Result<(), NoMemory>
    ensures { OnOk result (svg.new ≡ svg.old ++ measure_layer (sides_of (flat sides.lengths))
        (shown_at (measured_told measured.now)) count) }
{
    open(sides, svg)?;
    put_all(measured, count, svg)?;
    svg.put(b"</g>\n")?;
    Ok(())
}
