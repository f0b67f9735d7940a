//! Cells for the true values of a row alone: the cell of such a place stands at its number.
//! Where each place has a cell, nothing of this is used.
ghost use Rattle.std.specs.Prelude.{◌≡◌, ◌+◌, ◌*◌, ◌<◌, ◌≤◌, ℕ, IfOk, true, false, length, slice_index_or};
ghost use Rattle.shape_terms.specs.Limits.{most_framed};
ghost use Rattle.shape_cells.specs.Counting.{trues};
ghost use Rattle.shape_cells.specs.Held.{trues_kept, value_at, with_value};

use crate::cell::Cell;
use crate::numbering::Numbering;
use shape_space::NoMemory;
use std::alloc::Global;

/// Cells of the true values, each of which holds what its place tells.
pub(crate) fn bare_cells<T: Cell>(alloc: Global, objects: &Numbering) -> Result<Vec<T>, NoMemory>
    requires { length objects.now ≤ most_framed }
    ensures long { IfOk result (λ v. length v.items ≡ trues objects.now) }
    ensures bare { IfOk result (λ v. (i : ℕ) → value_at T.bare objects.now v.items i ≡ T.bare i) }
{
    let mut cells = Vec::with_capacity(alloc, objects.count() as usize)?;
    let mut from = 0;
    while let Some(place) = objects.first_from(from) {
        cells.push(T::bare(place))?;
        from = place + 1;
    }
    Ok(cells)
}

/// What a place holds.
#[inline]
pub(crate) fn value<T: Cell>(objects: &Numbering, cells: &[T], place: u32) -> T
    requires within { place < length objects.now }
    requires all { length cells.now ≡ trues objects.now }
    ensures { result ≡ value_at T.bare objects.now cells.now place }
{
    if objects.has(place) {
        cells[objects.number(place) as usize]
    } else {
        T::bare(place)
    }
}

/// Has a place hold another value, if its value in the row is true.
#[inline]
pub(crate) fn put<T: Cell>(objects: &Numbering, cells: &mut [T], place: u32, value: T)
    requires within { place < length objects.now }
    requires all { length cells.old ≡ trues objects.now }
    ensures { trues_kept T.bare objects.now cells.new
        ≡ with_value (trues_kept T.bare objects.now cells.old) place value }
{
    if objects.has(place) {
        cells[objects.number(place) as usize] = value;
    }
}

// Copies what so many places in a row hold, from a place on, to the places number y of the lines of a block.
fn take_places<T: Cell>(
    objects: &Numbering,
    cells: &[T],
    block: &mut [T],
    at: u32,
    y: usize,
    side: usize,
    lines: usize,
)
    requires inside { at + lines ≤ length objects.now }
    requires all { length cells.now ≡ trues objects.now }
    requires few { length objects.now ≤ most_framed }
    requires line { y < side }
    requires room { lines * side ≤ length block.old }
    ensures taken { (d : T) (j : ℕ) → j < lines
        → slice_index_or block.new (j * side + y) d
        ≡ slice_index_or (trues_kept T.bare objects.now cells.now).values (at + j) d }
    ensures others { (d : T) (i : ℕ) → ((j : ℕ) → j < lines → i ≡ j * side + y → ⊥)
        → slice_index_or block.new i d ≡ slice_index_or block.old i d }
{
    let mut number = objects.number(at) as usize;
    for j in 0..lines {
        let place = at + j as u32;
        if objects.has(place) {
            block[j * side + y] = cells[number];
            number += 1;
        } else {
            block[j * side + y] = T::bare(place);
        }
    }
}

// Copies the places number y of the lines of a block back to where `take_places` finds them: to each whose value in the row is true.
fn put_places<T: Cell>(
    objects: &Numbering,
    cells: &mut [T],
    block: &[T],
    at: u32,
    y: usize,
    side: usize,
    lines: usize,
)
    requires inside { at + lines ≤ length objects.now }
    requires all { length cells.old ≡ trues objects.now }
    requires few { length objects.now ≤ most_framed }
    requires line { y < side }
    requires room { lines * side ≤ length block.now }
    ensures put { (d : T) (j : ℕ) → j < lines → slice_index_or objects.now (at + j) false ≡ true
        → slice_index_or (trues_kept T.bare objects.now cells.new).values (at + j) d
        ≡ slice_index_or block.now (j * side + y) d }
    ensures others { (d : T) (i : ℕ)
        → ((j : ℕ) → j < lines → i ≡ at + j → slice_index_or objects.now i false ≡ true → ⊥)
        → slice_index_or (trues_kept T.bare objects.now cells.new).values i d
        ≡ slice_index_or (trues_kept T.bare objects.now cells.old).values i d }
{
    let mut number = objects.number(at) as usize;
    for j in 0..lines {
        if objects.has(at + j as u32) {
            cells[number] = block[j * side + y];
            number += 1;
        }
    }
}

/// Copies lines into a block, as the cells of all places do.
pub(crate) fn take_lines<T: Cell>(
    objects: &Numbering,
    cells: &[T],
    block: &mut [T],
    start: usize,
    step: usize,
    side: u32,
    lines: u32,
)
    requires inside { (y : ℕ) → y < side → start + y * step + lines ≤ length objects.now }
    requires all { length cells.now ≡ trues objects.now }
    requires few { length objects.now ≤ most_framed }
    requires room { lines * side ≤ length block.old }
    ensures taken { (d : T) (j y : ℕ) → j < lines → y < side
        → slice_index_or block.new (j * side + y) d
        ≡ slice_index_or (trues_kept T.bare objects.now cells.now).values (start + y * step + j) d }
{
    for y in 0..side {
        let at = (start + y as usize * step) as u32;
        take_places(
            objects,
            cells,
            block,
            at,
            y as usize,
            side as usize,
            lines as usize,
        );
    }
}

/// Copies lines of a block back, as the cells of all places do.
pub(crate) fn put_lines<T: Cell>(
    objects: &Numbering,
    cells: &mut [T],
    block: &[T],
    start: usize,
    step: usize,
    side: u32,
    lines: u32,
)
    requires inside { (y : ℕ) → y < side → start + y * step + lines ≤ length objects.now }
    requires apart { lines ≤ step }
    requires all { length cells.old ≡ trues objects.now }
    requires few { length objects.now ≤ most_framed }
    requires room { lines * side ≤ length block.now }
    ensures put { (d : T) (j y : ℕ) → j < lines → y < side
        → slice_index_or objects.now (start + y * step + j) false ≡ true
        → slice_index_or (trues_kept T.bare objects.now cells.new).values (start + y * step + j) d
        ≡ slice_index_or block.now (j * side + y) d }
    ensures others { (d : T) (i : ℕ)
        → ((j y : ℕ) → j < lines → y < side → i ≡ start + y * step + j
        → slice_index_or objects.now i false ≡ true → ⊥)
        → slice_index_or (trues_kept T.bare objects.now cells.new).values i d
        ≡ slice_index_or (trues_kept T.bare objects.now cells.old).values i d }
{
    for y in 0..side {
        let at = (start + y as usize * step) as u32;
        put_places(
            objects,
            cells,
            block,
            at,
            y as usize,
            side as usize,
            lines as usize,
        );
    }
}
