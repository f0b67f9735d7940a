//! Stretches of borders as strokes: those of the k-th border along the k-th of some paths.
//! What paths these are, the kinds of reports say.
ghost use Rattle.std.specs.Prelude.{◌≡◌, ◌≤◌, ◌<◌, ◌+◌, ◌^◌, ◌++◌, ◌∷◌, IfOk, OnOk, List};
ghost use Rattle.std.specs.Option.{option_map, option_to_list};
ghost use Rattle.drawing.specs.Seen.{flats, stroke, all_strokes};
ghost use Rattle.drawing.specs.Outlines.{stroke_of};
ghost use Rattle.draw_report.specs.Parts as Parts;
ghost use Rattle.draw_report.specs.Borders.{borders, strokes_over};
ghost use Rattle.draw_report.specs.Going.{path_before, strokes_from};
ghost use Rattle.draw_report.specs.Seen.{mark_of, all_marks, all_paths};

use crate::part::Mark;
use drawing::{Stroke, point_at};
use shape_space::{NoMemory, P2};
use std::alloc::Global;

// How many borders were begun, and whether the next stretch of the last one is even.
#[derive(Clone, Copy)]
struct Cursor {
    begun: usize,
    even: bool,
}

// The path of the border that was begun last, and no point where there is none.
fn path_before(paths: &[Vec<P2>], begun: usize) -> &[P2]
    ensures { flats result.now ≡ path_before (all_paths paths.now) begun }
{
    if begun == 0 || begun > paths.len() {
        return &[];
    }
    paths[begun - 1].as_slice()
}

// The stroke from place to place of a path.
fn stroke_on(points: &[P2], even: bool, first: u32, last: u32) -> Option<Stroke>
    ensures { option_map stroke result
        ≡ stroke_of (flats points.now) even (record { first = first; last = last }) }
{
    let (Some(from), Some(to)) = (point_at(points, first), point_at(points, last)) else {
        return None;
    };
    Some(Stroke { from, to, even })
}

// Puts the stroke from place to place of a path behind those before.
fn add_stretch(
    strokes: &mut Vec<Stroke>,
    points: &[P2],
    even: bool,
    first: u32,
    last: u32,
) -> Result<(), NoMemory>
    ensures { OnOk result (all_strokes strokes.new.items ≡ all_strokes strokes.old.items
        ++ option_to_list (stroke_of (flats points.now) even
        (record { first = first; last = last }))) }
{
    if let Some(s) = stroke_on(points, even, first, last) {
        strokes.push(s)?;
    }
    Ok(())
}

// Takes the next mark.
fn take_mark(
    strokes: &mut Vec<Stroke>,
    paths: &[Vec<P2>],
    at: Cursor,
    mark: Mark,
) -> Result<Cursor, NoMemory>
    requires { at.begun < 2 ^ 63 }
    ensures strokes { (rest : List Parts.Mark) → IfOk result (λ now. all_strokes strokes.new.items
        ++ strokes_from (all_paths paths.now) now.begun now.even rest
        ≡ all_strokes strokes.old.items
        ++ strokes_from (all_paths paths.now) at.begun at.even (mark_of mark ∷ rest)) }
    ensures begun { IfOk result (λ now. now.begun ≤ at.begun + 1) }
{
    match mark {
        Mark::Border => Ok(Cursor {
            begun: at.begun + 1,
            even: true,
        }),
        Mark::Along { first, last } => {
            add_stretch(strokes, path_before(paths, at.begun), at.even, first, last)?;
            Ok(Cursor {
                begun: at.begun,
                even: !at.even,
            })
        }
        Mark::Ball { .. } => Ok(at),
    }
}

/// The strokes of the stretches of each border along its path.
pub(crate) fn strokes_over(
    alloc: Global,
    paths: &[Vec<P2>],
    marks: &[Mark],
) -> Result<Vec<Stroke>, NoMemory>
    ensures { IfOk result (λ ss. all_strokes ss.items
        ≡ strokes_over (all_paths paths.now) (borders (all_marks marks.now))) }
{
    let mut strokes = Vec::new(alloc);
    let mut at = Cursor {
        begun: 0,
        even: true,
    };
    for mark in marks {
        at = take_mark(&mut strokes, paths, at, *mark)?;
    }
    Ok(strokes)
}
