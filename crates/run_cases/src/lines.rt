//! What is told of lines, turns, weights and segments.
use crate::numbers::{count, number, point, points};
use shape_refute::{
    Naive, Refutation, Share, Shares, Step, StepShare, StepShares, Turn, holds, is_proper, refutes,
    turns,
};
use shape_space::P2;
use std::alloc::Global;
use std::io;

/// Whether a line is proper, and whether it holds a point. Its coefficients are told, its bound, its axis, and then the point.
pub(crate) fn tell_line(alloc: Global, numbers: &[i64]) -> io::Result<String> {
    let line = Naive {
        a: [number(numbers, 0), number(numbers, 1), number(numbers, 2)],
        mu: number(numbers, 3),
        axis: u8::try_from(number(numbers, 4)).unwrap_or(0),
    };
    let is_proper = is_proper::<P2>(&line);
    let is_held = holds::<P2>(&line, point(numbers, 5));
    Ok(format!(in alloc; "proper {is_proper}, held {is_held}")?)
}

/// Whether two places of changes of a run are a turn. An axis is told, the places, and then the points.
pub(crate) fn tell_turn(alloc: Global, numbers: &[i64]) -> io::Result<String> {
    let run = points(alloc, numbers, 3)?;
    let turn = Turn {
        i: count(numbers, 1),
        j: count(numbers, 2),
    };
    let axis = number(numbers, 0) != 0;
    let is_turn = turns(&run, usize::from(axis), &turn);
    Ok(format!(in alloc; "{is_turn}")?)
}

// The step that a number stands for: 1 and the next ones for a step along an axis as well, -1 and the ones before for one back.
fn step_of(number: i64) -> Step {
    let axis = u8::try_from(number.unsigned_abs().saturating_sub(1)).unwrap_or(0);
    if number == 0 {
        Step::Up
    } else if number > 0 {
        Step::Plus(axis)
    } else {
        Step::Minus(axis)
    }
}

// The weights of some places: how many there are, and for each its weight and the place.
fn shares_of(numbers: &[i64], first: usize) -> Shares {
    let mut shares = Shares::new();
    for k in 0..4usize {
        let place = first.saturating_add(2 * k + 1);
        if k < count(numbers, first) as usize && shares.len() < 4 {
            shares.push(Share {
                weight: u64::from(count(numbers, place)),
                place: count(numbers, place.saturating_add(1)),
            });
        }
    }
    shares
}

// The weights of some steps: how many there are, and for each its weight and the step.
fn step_shares_of(numbers: &[i64], first: usize) -> StepShares {
    let mut shares = StepShares::new();
    for k in 0..4usize {
        let place = first.saturating_add(2 * k + 1);
        if k < count(numbers, first) as usize && shares.len() < 4 {
            shares.push(StepShare {
                weight: u64::from(count(numbers, place)),
                step: step_of(number(numbers, place.saturating_add(1))),
            });
        }
    }
    shares
}

// The place behind some weights.
fn behind(numbers: &[i64], first: usize) -> usize {
    first
        .saturating_add(1)
        .saturating_add((count(numbers, first) as usize).saturating_mul(2))
}

/// Whether weights refute points. An axis is told, the weights of low and of high places and of steps, and then the points.
pub(crate) fn tell_weights(alloc: Global, numbers: &[i64]) -> io::Result<String> {
    let high = behind(numbers, 1);
    let steps = behind(numbers, high);
    let points = points(alloc, numbers, behind(numbers, steps))?;
    let why = Refutation {
        low: shares_of(numbers, 1),
        high: shares_of(numbers, high),
        steps: step_shares_of(numbers, steps),
    };
    let axis = number(numbers, 0) != 0;
    let is_refuted = refutes(&points, usize::from(axis), &why);
    Ok(format!(in alloc; "{is_refuted}")?)
}
