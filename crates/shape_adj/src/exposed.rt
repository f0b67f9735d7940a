//! The exposed points of a face: object points whose side neighbour one step on is background, found 64 at a time.
//! How they fall into patches belongs elsewhere.
ghost use Rattle.std.specs.Prelude.{◌≡◌, ℕ, ◌+◌, ◌*◌, ◌/◌, ◌^◌, ◌<◌, ◌≤◌, length, slice_index_or, false, true};
ghost use Rattle.std.specs.Int.{bit_at};
ghost use Rattle.shape_terms.specs.Points.{Point as Where, sides_of, box_count};
ghost use Rattle.shape_terms.specs.Pictures.{at};
ghost use Rattle.shape_grid.specs.Truths.{AreOfWord};
ghost use Rattle.shape_adj.specs.FacePoints.{gap_of, sense_up, exposed_at, AreFrom, IsOpen, IsOpenBelow, IsTrueFrom, IsTrueInBlocks, Gains};

use shape_grid::{Bits, Grid};
use shape_space::{Point, Sides};

// How many numbers apart two points one step apart on an axis are in raster order; past the last axis, how many points there are.
fn gap_on<P: Point>(sides: &Sides<P>, axis: usize) -> u32
    requires { axis ≤ P.DIM }
    ensures value { result ≡ gap_of (sides_of (P.coords sides.now.lengths)) axis }
    ensures some { 1 ≤ result }
{
    let mut gap: u32 = 1;
    for k in 0..axis {
        gap *= sides.side(k) as u32;
    }
    gap
}

// The values of a word; no value is true in a word behind the last one.
fn word_at(values: &Bits, w: usize) -> u64
    ensures { AreOfWord values.now w result }
{
    if w <= values.len() / 64 {
        values.word(w)
    } else {
        0
    }
}

// The 64 values from a place on: bit k is set where the value k places on is true.
fn word_from(values: &Bits, i: usize) -> u64
    ensures { AreFrom values.now i result }
{
    let low = word_at(values, i / 64) >> (i % 64);
    if i % 64 == 0 {
        return low;
    }
    low | (word_at(values, i / 64 + 1) << (64 - i % 64))
}

// Makes all points background.
fn clear<P: Point>(exposed: &mut Grid<P>)
    ensures sides { exposed.new.sides ≡ exposed.old.sides }
    ensures none { (i : ℕ) → slice_index_or exposed.new.values i false ≡ false }
{
    exposed.is_picture();
    let mut next = 0;
    while let Some(i) = exposed.values().first_from(next) {
        exposed.clear_number(i as u32);
        next = i + 1;
    }
}

// Makes the points object whose bits are set in a word; its lowest bit stands for the first point.
fn show_word<P: Point>(exposed: &mut Grid<P>, first: usize, word: u64)
    requires { (k : ℕ) → bit_at word k ≡ 1 → first + k < box_count exposed.old.sides }
    ensures { Gains exposed.old exposed.new (λ i. (k : ℕ) × (i ≡ first + k) × (bit_at word k ≡ 1)) }
{
    exposed.is_picture();
    let mut rest = word;
    while rest != 0 {
        let k = rest.trailing_zeros() as usize;
        rest &= !(1u64 << k);
        exposed.set_number((first + k) as u32);
    }
}

// Shows the object points among 64 from the first on where the points as many places behind the other are background.
fn expose_word<P: Point>(grid: &Grid<P>, exposed: &mut Grid<P>, first: usize, other: usize)
    requires { exposed.old.sides ≡ grid.now.sides }
    ensures { Gains exposed.old exposed.new (IsOpenBelow grid.now.values first other 64) }
{
    grid.is_picture();
    let values = grid.values();
    let word = word_from(values, first) & !word_from(values, other);
    show_word(exposed, first, word);
}

// The same of all points from the first on.
fn expose_run<P: Point>(grid: &Grid<P>, exposed: &mut Grid<P>, first: usize, other: usize)
    requires sides { exposed.old.sides ≡ grid.now.sides }
    requires first { first < 2 ^ 32 }
    requires other { other < 2 ^ 32 }
    ensures { Gains exposed.old exposed.new (IsOpen grid.now.values first other) }
{
    grid.is_picture();
    for w in 0..grid.values().len() / 64 + 1 {
        expose_word(grid, exposed, first + 64 * w, other + 64 * w);
    }
}

// Shows the point with a number if it is object.
fn show<P: Point>(grid: &Grid<P>, exposed: &mut Grid<P>, i: u32)
    requires sides { exposed.old.sides ≡ grid.now.sides }
    requires point { i < box_count grid.now.sides }
    ensures { Gains exposed.old exposed.new (IsTrueFrom grid.now.values i 1) }
{
    grid.is_picture();
    exposed.is_picture();
    if grid.values().get(i as usize) {
        exposed.set_number(i);
    }
}

// Shows the object points among so many from the first on.
fn show_run<P: Point>(grid: &Grid<P>, exposed: &mut Grid<P>, first: u32, count: u32)
    requires sides { exposed.old.sides ≡ grid.now.sides }
    requires points { first + count ≤ box_count grid.now.sides }
    ensures { Gains exposed.old exposed.new (IsTrueFrom grid.now.values first count) }
{
    grid.is_picture();
    for k in 0..count {
        show(grid, exposed, first + k);
    }
}

// Shows the object points among as many as `gap` in each block, from so many behind its start on: where those are the last or
// the first of it, they have no neighbour one step on or back in the box.
fn show_ends<P: Point>(grid: &Grid<P>, exposed: &mut Grid<P>, block: u32, start: u32, gap: u32)
    requires sides { exposed.old.sides ≡ grid.now.sides }
    requires block { 1 ≤ block }
    requires within { start + gap ≤ block }
    ensures { Gains exposed.old exposed.new
        (IsTrueInBlocks grid.now.values block start gap (box_count grid.now.sides / block)) }
{
    let sides = grid.sides();
    for number in 0..sides.count() / block {
        show_run(grid, exposed, block * number + start, gap);
    }
}

/// Makes the exposed points of a face the object points of a grid, in place of those that it had: the object points whose neighbour
/// one step along the axis, up or down, is background.
///
/// A point has its neighbour as many numbers on or back as `gap`, or out of the box.
pub fn expose<P: Point>(grid: &Grid<P>, axis: usize, is_up: bool, exposed: &mut Grid<P>)
    requires axis { axis < P.DIM }
    requires box_ { exposed.old.sides ≡ grid.now.sides }
    ensures box_ { exposed.new.sides ≡ grid.now.sides }
    ensures points { (q : Where) → at exposed.new q ≡ exposed_at grid.now axis (sense_up is_up) q }
{
    clear(exposed);
    let sides = grid.sides();
    let gap = gap_on(&sides, axis);
    let block = gap_on(&sides, axis + 1);
    if is_up {
        expose_run(grid, exposed, 0, gap as usize);
        show_ends(grid, exposed, block, block - gap, gap);
    } else {
        expose_run(grid, exposed, gap as usize, 0);
        show_ends(grid, exposed, block, 0, gap);
    }
}
