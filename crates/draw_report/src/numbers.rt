//! The layer of numbers: that of each object in the table, at its deepest point.
//! Another look is a change of the texts here and of the same texts in `specs/Numbers.antt`.
ghost use Rattle.std.specs.Prelude.{◌≡◌, ◌≤◌, ◌++◌, ◌^◌, [], map, nat_abs, OnOk};
ghost use Rattle.std.specs.Option.{option_map, unwrap_or};
ghost use Rattle.shape_terms.specs.Points.{coordinate, raster_point, sides_of};
ghost use Rattle.drawing.specs.Seen.{flat};
ghost use Rattle.measuring.specs.Told.{measures_told};
ghost use Rattle.draw_report.specs.Numbers.{deepest_point, place_text, number_text, number_at, numbers_text, opening, digit_size, number_layer};

use drawing::{Svg, scale_of, side};
use measuring::Measures;
use shape_space::{NoMemory, P2, Sides};

// The coordinate x of the point with a raster number.
fn column(sides: Sides<P2>, number: u32) -> usize
    ensures value { result
        ≡ nat_abs (coordinate (raster_point (sides_of (flat sides.lengths)) number) 0) }
    ensures most { result ≤ 2 ^ 32 }
{
    number as usize % side(sides, 0)
}

// Its coordinate y.
fn row(sides: Sides<P2>, number: u32) -> usize
    ensures value { result
        ≡ nat_abs (coordinate (raster_point (sides_of (flat sides.lengths)) number) 1) }
    ensures most { result ≤ 2 ^ 32 }
{
    number as usize / side(sides, 0) % side(sides, 1)
}

// Opens a number at a place.
fn put_place(x: usize, y: usize, svg: &mut Svg) -> Result<(), NoMemory>
    requires x { x ≤ 2 ^ 32 }
    requires y { y ≤ 2 ^ 32 }
    ensures { OnOk result (svg.new ≡ svg.old ++ place_text x y) }
{
    svg.put(b"<text x=\"")?;
    svg.count(1000 * x)?;
    svg.put(b"\" y=\"")?;
    svg.count(1000 * y)
}

// Puts a number with its middle at a place.
fn put_number(number: usize, x: usize, y: usize, svg: &mut Svg) -> Result<(), NoMemory>
    requires x { x ≤ 2 ^ 32 }
    requires y { y ≤ 2 ^ 32 }
    ensures { OnOk result (svg.new ≡ svg.old ++ number_text number x y) }
{
    put_place(x, y, svg)?;
    svg.put(b"\" dy=\".35em\">")?;
    svg.count(number)?;
    svg.put(b"</text>\n")?;
    Ok(())
}

// Puts the number of an object at its deepest point.
fn put_at(
    sides: Sides<P2>,
    number: usize,
    deepest: Option<u32>,
    svg: &mut Svg,
) -> Result<(), NoMemory>
    ensures { OnOk result (svg.new ≡ svg.old ++ number_at number
        (unwrap_or (option_map (raster_point (sides_of (flat sides.lengths))) deepest) [])) }
{
    match deepest {
        Some(i) => put_number(number, column(sides, i), row(sides, i), svg),
        None => put_number(number, 0, 0, svg),
    }
}

// Puts the numbers of all objects.
fn put_all(sides: Sides<P2>, objects: &[Measures], svg: &mut Svg) -> Result<(), NoMemory>
    ensures { OnOk result (svg.new ≡ svg.old ++ numbers_text
        (map deepest_point (map (measures_told (sides_of (flat sides.lengths))) objects.now))) }
{
    for i in 0..objects.len() {
        put_at(sides, i + 1, objects[i].deepest, svg)?;
    }
    Ok(())
}

// Opens the layer.
fn open(sides: Sides<P2>, svg: &mut Svg) -> Result<(), NoMemory>
    ensures { OnOk result (svg.new ≡ svg.old
        ++ opening (digit_size (nat_abs sides.lengths.x) (nat_abs sides.lengths.y))) }
{
    svg.put(b"<g transform=\"scale(.001)\" font-family=\"sans-serif\" font-size=\"")?;
    svg.count(16000 / scale_of(sides))?;
    svg.put(
        b"\" font-weight=\"bold\" text-anchor=\"middle\" fill=\"#909\" stroke=\"#fff\" stroke-width=\".2em\" paint-order=\"stroke\">\n",
    )?;
    Ok(())
}

/// Puts the numbers of the objects, in the order of the rows.
pub(crate) fn put_numbers(
    sides: Sides<P2>,
    objects: &[Measures],
    svg: &mut Svg,
) -> Result<(), NoMemory>
    ensures { OnOk result (svg.new ≡ svg.old ++ number_layer (sides_of (flat sides.lengths))
        (map deepest_point (map (measures_told (sides_of (flat sides.lengths))) objects.now))) }
{
    open(sides, svg)?;
    put_all(sides, objects, svg)?;
    svg.put(b"</g>\n")?;
    Ok(())
}
