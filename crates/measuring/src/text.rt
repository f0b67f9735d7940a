//! The text of a table: its header and its rows.
//! A further column is one more piece of a row here, in the same place as in `Texts`.
ghost use Rattle.std.specs.Prelude.{◌≡◌, ◌<◌, ◌≤◌, ◌++◌, ℕ, List, map, nat_abs, IfOk, OnOk, true, false};
ghost use Rattle.std.specs.Option.{option_map};
ghost use Rattle.shape_terms.specs.Points.{coordinate, sides_of, raster_point};
ghost use Rattle.measure_terms.specs.Measures as Terms;
ghost use Rattle.measure_terms.specs.Texts.{place, box_text, centre_text, depth_text, skeleton_text, touches_text, sides_text, size_text, form_text, cells, row_text, header, header_line, table_text};
ghost use Rattle.measuring.specs.Told.{measures_told};

use crate::columns::Columns;
use crate::csv::Csv;
use crate::round::{mean, root};
use crate::row::Measures;
use shape_space::{NoMemory, Point, Sides};
use std::alloc::Global;

// The coordinate of the point with a raster number, on an axis of the space.
fn axis_digit<P: Point>(sides: Sides<P>, i: u32, k: usize) -> u32
    requires { k < P.DIM }
    ensures { result
        ≡ nat_abs (coordinate (raster_point (sides_of (P.coords sides.lengths)) i) k) }
{
    let mut left = i;
    for j in 0..k {
        left /= sides.side(j) as u32;
    }
    left % sides.side(k) as u32
}

// The coordinate of the point with a raster number, and 0 on an axis that the space does not have.
fn digit<P: Point>(sides: Sides<P>, i: u32, k: usize) -> u32
    ensures { result
        ≡ nat_abs (coordinate (raster_point (sides_of (P.coords sides.lengths)) i) k) }
{
    if k < P::DIM {
        axis_digit(sides, i, k)
    } else {
        0
    }
}

// A coordinate of the deepest point, and 0 where there is none.
fn deepest_place<P: Point>(sides: Sides<P>, deepest: Option<u32>, k: usize) -> u32
    ensures { result
        ≡ place (option_map (raster_point (sides_of (P.coords sides.lengths))) deepest) k }
{
    match deepest {
        Some(i) => digit(sides, i, k),
        None => 0,
    }
}

// Puts the least and the greatest coordinates.
fn put_box<P: Point>(m: &Measures, csv: &mut Csv) -> Result<(), NoMemory>
    ensures { (sides : List ℕ) → OnOk result
        (csv.new ≡ csv.old ++ box_text P.DIM (measures_told sides m.now)) }
{
    csv.whole_axes::<P>(m.x.least, m.y.least, m.z.least)?;
    csv.whole_axes::<P>(m.x.greatest, m.y.greatest, m.z.greatest)
}

// Puts the means of the coordinates.
fn put_centre<P: Point>(m: &Measures, csv: &mut Csv) -> Result<(), NoMemory>
    ensures { (sides : List ℕ) → OnOk result
        (csv.new ≡ csv.old ++ centre_text P.DIM (measures_told sides m.now)) }
{
    csv.thousandths_axes::<P>(
        mean(m.x.sum, m.area),
        mean(m.y.sum, m.area),
        mean(m.z.sum, m.area),
    )
}

// Puts an empty cell for each axis, and one before them.
fn put_no_depth<P: Point>(csv: &mut Csv) -> Result<(), NoMemory>
    ensures { (m : Terms.Measures) → OnOk result (csv.new ≡ csv.old ++ depth_text false P.DIM m) }
{
    csv.put(b",,,")?;
    if P::DIM == 3 {
        csv.put(b",")?;
    }
    Ok(())
}

// Puts the greatest distance to the background, and the first point that has it.
fn put_depth<P: Point>(sides: Sides<P>, m: &Measures, csv: &mut Csv) -> Result<(), NoMemory>
    ensures { OnOk result (csv.new ≡ csv.old
        ++ depth_text true P.DIM (measures_told (sides_of (P.coords sides.lengths)) m.now)) }
{
    csv.thousandths(root(m.depth))?;
    csv.whole_axes::<P>(
        deepest_place(sides, m.deepest, 0),
        deepest_place(sides, m.deepest, 1),
        deepest_place(sides, m.deepest, 2),
    )
}

// Puts both where distances are told, and else empty cells.
fn put_depth_where<P: Point>(
    told: bool,
    sides: Sides<P>,
    m: &Measures,
    csv: &mut Csv,
) -> Result<(), NoMemory>
    ensures { OnOk result (csv.new ≡ csv.old
        ++ depth_text told P.DIM (measures_told (sides_of (P.coords sides.lengths)) m.now)) }
{
    if told {
        put_depth(sides, m, csv)
    } else {
        put_no_depth::<P>(csv)
    }
}

// Puts how many points are left, and how many of these are ends and junctions.
fn put_skeleton(m: &Measures, csv: &mut Csv) -> Result<(), NoMemory>
    ensures { (sides : List ℕ) → OnOk result
        (csv.new ≡ csv.old ++ skeleton_text (measures_told sides m.now)) }
{
    csv.whole(m.skeleton as u128)?;
    csv.whole(m.ends as u128)?;
    csv.whole(m.junctions as u128)
}

// Puts whether the object reaches the border of the box.
fn put_touches(m: &Measures, csv: &mut Csv) -> Result<(), NoMemory>
    ensures { (sides : List ℕ) → OnOk result
        (csv.new ≡ csv.old ++ touches_text (measures_told sides m.now)) }
{
    csv.whole(if m.touches { 1 } else { 0 })
}

// Puts in space how many sides are exposed.
fn put_sides<P: Point>(m: &Measures, csv: &mut Csv) -> Result<(), NoMemory>
    ensures { (sides : List ℕ) → OnOk result
        (csv.new ≡ csv.old ++ sides_text P.DIM (measures_told sides m.now)) }
{
    if P::DIM == 3 {
        csv.whole(m.exposed as u128)?;
    }
    Ok(())
}

// Puts how large an object is, and where it lies.
fn put_size<P: Point>(m: &Measures, csv: &mut Csv) -> Result<(), NoMemory>
    ensures { (sides : List ℕ) → OnOk result
        (csv.new ≡ csv.old ++ size_text P.DIM (measures_told sides m.now)) }
{
    csv.whole(m.area as u128)?;
    put_box::<P>(m, csv)?;
    put_centre::<P>(m, csv)?;
    Ok(())
}

// Puts how deep an object is, what is left of it, and whether it may go on outside the box.
fn put_form<P: Point>(
    told: bool,
    sides: Sides<P>,
    m: &Measures,
    csv: &mut Csv,
) -> Result<(), NoMemory>
    ensures { OnOk result (csv.new ≡ csv.old
        ++ form_text told P.DIM (measures_told (sides_of (P.coords sides.lengths)) m.now)) }
{
    put_depth_where(told, sides, m, csv)?;
    put_skeleton(m, csv)?;
    put_touches(m, csv)?;
    put_sides::<P>(m, csv)?;
    Ok(())
}

// Puts the cells of an object behind its number.
fn put_cells<P: Point>(
    told: bool,
    sides: Sides<P>,
    m: &Measures,
    csv: &mut Csv,
) -> Result<(), NoMemory>
    ensures { OnOk result (csv.new ≡ csv.old
        ++ cells told P.DIM (measures_told (sides_of (P.coords sides.lengths)) m.now)) }
{
    put_size::<P>(m, csv)?;
    put_form(told, sides, m, csv)?;
    Ok(())
}

// Puts the row with a place.
fn put_row<P: Point, C: Columns>(
    told: bool,
    sides: Sides<P>,
    i: usize,
    m: &Measures,
    more: &C,
    csv: &mut Csv,
) -> Result<(), NoMemory>
    ensures { OnOk result (csv.new ≡ csv.old ++ row_text told P.DIM (C.columns more.now) i
        (measures_told (sides_of (P.coords sides.lengths)) m.now)) }
{
    csv.number(i as u128 + 1)?;
    put_cells(told, sides, m, csv)?;
    more.put_cells(i, csv)?;
    csv.put(b"\n")?;
    Ok(())
}

// The names of the columns, in the plane or in space.
fn header(flat: bool) -> &'static [u8]
    ensures { result.now ≡ header flat }
{
    if flat {
        b"object,area,left,top,right,bottom,x,y,radius,cx,cy,skeleton,ends,junctions,touches"
    } else {
        b"object,voxels,x0,y0,z0,x1,y1,z1,x,y,z,radius,cx,cy,cz,skeleton,ends,junctions,touches,sides"
    }
}

// Puts the names of all columns.
fn put_header<P: Point, C: Columns>(more: &C, csv: &mut Csv) -> Result<(), NoMemory>
    ensures { OnOk result (csv.new ≡ csv.old ++ header_line P.DIM (C.columns more.now)) }
{
    csv.put(header(P::DIM == 2))?;
    more.put_names(csv)?;
    csv.put(b"\n")?;
    Ok(())
}

/// The text of the table of a picture's objects: a header, and a row for each of them, numbered from 1 on, with further columns
/// behind. Where no distance is told the cells of radii and of their points are empty.
///
/// `NoMemory` comes where memory is wanted and there is none.
pub fn table_text<P: Point, C: Columns>(
    alloc: Global,
    told: bool,
    sides: Sides<P>,
    all: &[Measures],
    more: &C,
) -> Result<Vec<u8>, NoMemory>
    ensures { IfOk result (λ text. text.items ≡ table_text told P.DIM (C.columns more.now)
        (map (measures_told (sides_of (P.coords sides.lengths))) all.now)) }
{
    let mut csv = Csv::new(alloc);
    put_header::<P, C>(more, &mut csv)?;
    for i in 0..all.len() {
        put_row(told, sides, i, &all[i], more, &mut csv)?;
    }
    Ok(csv.into_text())
}
