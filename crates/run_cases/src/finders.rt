//! What is found of a few numbers, by the words of a case: boxes, neighbours, labels, moments, masks, lines, turns, weights, segments and runs.
//! A further word is one more row of `found`.
use crate::boxes::{tell_box, tell_labels, tell_mask, tell_near, tell_place};
use crate::lines::{tell_line, tell_turn, tell_weights};
use crate::numbers::{count, numbers_of};
use crate::runs::tell_segment;
use crate::sums::tell_moments;
use crate::verdicts::{tell_run, tell_terms};
use shape_space::{P2, P3};
use std::alloc::Global;
use std::io;

// What is found of the points of boxes, and of the masks of their neighbours.
fn found_of_points(alloc: Global, word: &str, numbers: &[i64]) -> io::Result<String> {
    match word {
        "box" => tell_box::<P2>(alloc, numbers),
        "solid-box" => tell_box::<P3>(alloc, numbers),
        "place" => tell_place::<P2>(alloc, numbers),
        "solid-place" => tell_place::<P3>(alloc, numbers),
        "near" => tell_near(alloc, P2 { x: 5, y: 0 }),
        "solid-near" => tell_near(alloc, P3 { x: 5, y: 0, z: 7 }),
        "simple" => tell_mask::<P2>(alloc, count(numbers, 0) % 256),
        "solid-simple" => tell_mask::<P3>(alloc, count(numbers, 0) % 0x4000000),
        "moments" => tell_moments::<P2>(alloc, numbers),
        "solid-moments" => tell_moments::<P3>(alloc, numbers),
        _ => tell_labels(alloc, numbers),
    }
}

/// What is found of the numbers behind a word.
pub(crate) fn found(alloc: Global, line: &str) -> io::Result<String> {
    let (word, rest) = line.split_once(' ').unwrap_or((line, ""));
    let numbers = numbers_of(alloc, rest)?;
    match word {
        "line" => tell_line(alloc, &numbers),
        "turn" => tell_turn(alloc, &numbers),
        "weights" => tell_weights(alloc, &numbers),
        "segment" => tell_segment(alloc, &numbers),
        "run" => tell_run(alloc, &numbers),
        "terms" => tell_terms(alloc, &numbers),
        _ => found_of_points(alloc, word, &numbers),
    }
}
