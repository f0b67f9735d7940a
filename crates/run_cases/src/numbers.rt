//! Numbers and points that the words of a case spell. A word that is no number stands for 0, and so does one that is not there.
use crate::case::wanting;
use shape_grid::Grid;
use shape_space::{P2, Point, Sides};
use std::alloc::{AllocError, Global};
use std::io;

/// The numbers of a text.
pub(crate) fn numbers_of(alloc: Global, text: &str) -> io::Result<Vec<i64>> {
    let mut numbers = Vec::new(alloc);
    for word in text.split_whitespace() {
        numbers.push(word.parse().unwrap_or(0))?;
    }
    Ok(numbers)
}

/// The number at a place.
pub(crate) fn number(numbers: &[i64], place: usize) -> i64 {
    numbers.get(place).copied().unwrap_or(0)
}

/// The number at a place, where it is one of 32 bits without a sign.
pub(crate) fn count(numbers: &[i64], place: usize) -> u32 {
    u32::try_from(number(numbers, place)).unwrap_or(0)
}

/// The point whose coordinates stand from a place on.
pub(crate) fn point<P: Point>(numbers: &[i64], place: usize) -> P {
    let mut p = P::origin();
    for k in 0..P::DIM {
        let coordinate = number(numbers, place.saturating_add(k));
        p = p.with(k, i32::try_from(coordinate).unwrap_or(0));
    }
    p
}

/// The points of the plane whose coordinates stand from a place on.
pub(crate) fn points(alloc: Global, numbers: &[i64], place: usize) -> io::Result<Vec<P2>> {
    let mut points = Vec::new(alloc);
    for k in 0..numbers.len().saturating_sub(place) / 2 {
        points.push(point(numbers, place.saturating_add(k.saturating_mul(2))))?;
    }
    Ok(points)
}

/// The picture or volume with these sides, and behind them a number for each point in raster order: 1 for an object point.
pub(crate) fn picture<P: Point>(alloc: Global, numbers: &[i64]) -> io::Result<Grid<P>> {
    let Some(sides) = Sides::try_new(point::<P>(numbers, 0)) else {
        return Err(io::Error::from(AllocError));
    };
    let mut grid = Grid::new(alloc, sides).map_err(wanting)?;
    for i in 0..sides.count() {
        let is_object = number(numbers, (i as usize).saturating_add(P::DIM)) == 1;
        if is_object && i < grid.sides().count() {
            grid.set_number(i);
        }
    }
    Ok(grid)
}
