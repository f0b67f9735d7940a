//! Simple points of tables and of spreads beside the topological numbers, and the masks of a square. Single masks stand in `boxes.cases` of `run_cases`.
//! A further picture is one more test.
ghost use Rattle.std.specs.Prelude.{◌≡◌};

use crate::mask::is_simple_mask;
use crate::shared::{at, square};
use shape_grid::Grid;
use shape_space::{P2, P3, Steps};
use shape_topo::{MaskedGrid, background_number, is_simple, mask_of, object_number};
use std::marker::Brand;
use std::sync::ledger::{Blank, Ledger};
use std::test::Fail;

#[test]
fn the_table_and_the_counts(rt: HostRuntime) {
    let mut simple = 0u32;
    for mask in 0..256u32 {
        let both_are_one = object_number::<P2>(mask) == 1 && background_number::<P2>(mask) == 1;
        assert!(rt; is_simple_mask::<P2>(mask) == both_are_one);
        if is_simple_mask::<P2>(mask) {
            simple = simple.saturating_add(1);
        }
    }
    assert!(rt; simple == 116);
}

#[test]
fn the_spreads_and_the_counts(rt: HostRuntime) {
    let mut state = 1u32;
    for _ in 0..4000u32 {
        state = state.wrapping_mul(1664525).wrapping_add(1013904223);
        let mask = state >> 6;
        let both_are_one = object_number::<P3>(mask) == 1 && background_number::<P3>(mask) == 1;
        assert!(rt; is_simple_mask::<P3>(mask) == both_are_one);
    }
}

// Whether the corner, the middle and the end of the first row of a grid are simple, where they are object, and the same of a grid with masks.
fn first_rows<L: Ledger>(
    blank: Blank,
    grid: &Grid<P2>,
    masked: &MaskedGrid<P2>,
) -> ([bool; 3], [bool; 3])
    requires name { blank.name ≡ L.name }
    requires parts { blank.parts ≡ L.parts }
    requires whole { blank.parts ≡ 1 }
{
    let mut steps = Steps::<L>::new(blank);
    let mut row = [false; 3];
    let mut other = [false; 3];
    for i in 0..3u32 {
        let p = at(i as i32, 0);
        if grid.has(p) {
            row[i as usize] = is_simple(grid, p, &mut steps);
        }
        if i < masked.sides().count() && masked.has(i) {
            other[i as usize] = masked.is_simple(i, &mut steps);
        }
    }
    (row, other)
}

// The mask of the middle of a square of 3 by 3 and its number of near neighbours, where it is object.
fn middle(masked: &MaskedGrid<P2>) -> Option<(u32, u8)> {
    let i = 4;
    if i < masked.sides().count() && masked.has(i) {
        Some((masked.mask(i), masked.near_count(i)))
    } else {
        None
    }
}

// The masks of a square, and those after the middle of its first row is gone: the corners of that row are ends then, and the
// square has a notch.
#[test]
fn masks_of_a_square(rt: HostRuntime) -> Result<(), Fail> {
    let grid = square(rt.alloc())?;
    assert!(rt;
        mask_of(&grid, P2 { x: 0, y: 0 }) == 208
            && mask_of(&grid, P2 { x: 1, y: 1 }) == 255
            && mask_of(&grid, P2 { x: 3, y: -1 }) == 32
    );
    let mut masked = MaskedGrid::new(rt.alloc(), grid.copy(rt.alloc())?)?;
    assert!(rt; middle(&masked) == Some((255, 8)));
    let top = 1;
    if top < masked.sides().count() {
        masked.clear(top);
    }
    assert!(rt; middle(&masked) == Some((253, 7)));
    assert!(rt; top < masked.sides().count() && !masked.has(top));
    let (row, other) = first_rows::<Brand>(Blank::new(1), &grid, &masked);
    assert!(rt; row == [true, true, true] && other == [true, false, true]);
    assert!(rt; masked.grid().count() == 8);
    assert!(rt; masked.into_grid().count() == 8);
    Ok(())
}
