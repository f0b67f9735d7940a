//! Small grids, changed, searched and copied.
//! Their points are told by hand.
use crate::shared::{at, of_marks};
use shape_grid::Grid;
use shape_space::P2;
use std::test::Fail;

// The first of some numbers in rising order that is not below another.
fn first_from(numbers: &[u32], from: u32) -> Option<u32> {
    for number in numbers {
        if *number >= from {
            return Some(*number);
        }
    }
    None
}

// Whether the object points of a grid are those with these numbers, in rising order: one by one, in a search from any number on,
// by their count, and none of them beside the box.
fn has_exactly(grid: &Grid<P2>, numbers: &[u32]) -> bool {
    let sides = grid.sides();
    for i in 0..sides.count() {
        let first = first_from(numbers, i);
        if grid.first_from(i) != first || grid.has(sides.unraster(i)) != (first == Some(i)) {
            return false;
        }
    }
    grid.first_from(sides.count()).is_none()
        && grid.count() as usize == numbers.len()
        && !grid.has(at(sides.side(0), 0))
}

#[test]
fn a_small_grid(rt: HostRuntime) -> Result<(), Fail> {
    let mut grid = of_marks(rt.alloc(), at(2, 2), b".##.")?;
    let copy = grid.copy(rt.alloc())?;
    let p = at(0, 1);
    if grid.sides().inside(p) {
        grid.clear(p);
    }
    assert!(rt; has_exactly(&grid, &[1]) && has_exactly(&copy, &[1, 2]));
    if grid.sides().inside(p) {
        grid.set(p);
    }
    assert!(rt; has_exactly(&grid, &[1, 2]));
    Ok(())
}

// Of 300 points the numbers 63, 65 and 299 are object: the last of one word of bits, the second of the next, and the last of all.
#[test]
fn a_grid_of_several_words(rt: HostRuntime) -> Result<(), Fail> {
    let mut grid = of_marks(rt.alloc(), at(30, 10), b"")?;
    for i in [63, 65, 299] {
        if i < grid.sides().count() {
            grid.set_number(i);
        }
    }
    let copy = grid.copy(rt.alloc())?;
    assert!(rt; has_exactly(&copy, &[63, 65, 299]));
    if 65 < grid.sides().count() {
        grid.clear_number(65);
    }
    assert!(rt; has_exactly(&grid, &[63, 299]) && has_exactly(&copy, &[63, 65, 299]));
    Ok(())
}
