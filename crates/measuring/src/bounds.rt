//! The corners of an object that bound it in each line of the grid, in raster order, from its rows.
//! A line between a row and the one right below has the outermost corners of both.
ghost use Rattle.std.specs.Prelude.{◌≡◌, ◌↔◌, ◌<◌, ◌≤◌, ◌+◌, ◌^◌, ℕ, List, length, IfOk, OnOk, IsTrue};
ghost use Rattle.measuring.specs.Rows.{row_at, AreRows};
ghost use Rattle.measuring.specs.declared.object_row.Row.{Row};
ghost use Rattle.measuring.specs.Corners.{corners, IsOf, AreInRasterOrder, AreShort, AreEndsOf, IsCornerOfRows};
ghost use Rattle.measuring.specs.Lines.{with_line, AreLines, reach};

use crate::line::Line;
use crate::object_row::Row;
use shape_space::{NoMemory, P2};
use std::alloc::Global;

// Puts both ends of a line.
fn put_line(points: &mut Vec<P2>, line: Line) -> Result<(), NoMemory>
    ensures ends { OnOk result
        (corners points.new.items ≡ with_line (corners points.old.items) line) }
    ensures few { OnOk result (length points.new.items ≡ length points.old.items + 2) }
{
    points.push(P2 {
        x: line.left,
        y: line.y,
    })?;
    points.push(P2 {
        x: line.right,
        y: line.y,
    })?;
    Ok(())
}

// Puts both ends of one line and of another.
fn put_lines(points: &mut Vec<P2>, upper: Line, lower: Line) -> Result<(), NoMemory>
    ensures ends { OnOk result (corners points.new.items
        ≡ with_line (with_line (corners points.old.items) upper) lower) }
    ensures few { OnOk result (length points.new.items ≡ length points.old.items + 4) }
{
    put_line(points, upper)?;
    put_line(points, lower)?;
    Ok(())
}

// Whether two lines lie as far down.
fn are_level(a: Line, b: Line) -> bool
    ensures { IsTrue result ↔ a.y ≡ b.y }
{
    a.y == b.y
}

// Puts the line between two rows, or where they are apart the one below the upper and the one above the lower of them.
fn put_between(points: &mut Vec<P2>, before: Row, row: Row) -> Result<(), NoMemory>
    ensures lines { (rows : List Row) (n : ℕ) → AreRows rows → n + 1 < length rows
        → before ≡ row_at rows n → row ≡ row_at rows (n + 1)
        → AreLines rows (n + 1) (reach rows (n + 1)) (corners points.old.items)
        → OnOk result (AreLines rows (n + 2) (reach rows (n + 2)) (corners points.new.items)) }
    ensures few { OnOk result (length points.new.items ≤ length points.old.items + 4) }
{
    let upper = Line::below(before);
    let lower = Line::above(row);
    if are_level(upper, lower) {
        put_line(points, upper.joined(lower))?;
        return Ok(());
    }
    put_lines(points, upper, lower)?;
    Ok(())
}

// The row with a place.
fn row_of(rows: &[Row], i: usize) -> Row
    requires { i < length rows.now }
    ensures { result ≡ row_at rows.now i }
{
    rows[i]
}

// Puts the lines above the row with a place.
fn put_row(points: &mut Vec<P2>, rows: &[Row], at: usize) -> Result<(), NoMemory>
    requires within { at < length rows.now }
    requires rows { AreRows rows.now }
    ensures lines { AreLines rows.now at (reach rows.now at) (corners points.old.items)
        → OnOk result
        (AreLines rows.now (at + 1) (reach rows.now (at + 1)) (corners points.new.items)) }
    ensures few { OnOk result (length points.new.items ≤ length points.old.items + 4) }
{
    let row = row_of(rows, at);
    if at == 0 {
        put_line(points, Line::above(row))?;
        return Ok(());
    }
    put_between(points, row_of(rows, at - 1), row)?;
    Ok(())
}

/// The corners of the object with these rows that bound it in each line of the grid, in raster order.
pub(crate) fn bounds(alloc: Global, rows: &[Row]) -> Result<Vec<P2>, NoMemory>
    requires some { 1 ≤ length rows.now }
    requires rows { AreRows rows.now }
    ensures order { IfOk result (λ ps. AreInRasterOrder (corners ps.items)) }
    ensures short { IfOk result (λ ps. AreShort (corners ps.items)) }
    ensures ends { IfOk result (λ ps. AreEndsOf (IsCornerOfRows rows.now (length rows.now))
        (IsOf (corners ps.items))) }
    ensures few { IfOk result (λ ps. length ps.items ≤ 2 ^ 19) }
{
    let mut points = Vec::new(alloc);
    for at in 0..rows.len() {
        put_row(&mut points, rows, at)?;
    }
    let last = row_of(rows, rows.len() - 1);
    put_line(&mut points, Line::below(last))?;
    Ok(points)
}
