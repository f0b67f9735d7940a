//! What is told of runs of points: a segment that takes one after another, and the verdict on a whole run.
ghost use Rattle.std.specs.Prelude.{◌<◌};

use crate::close::{is_close, is_small};
use crate::numbers::{number, points};
use shape_line::Segment;
use shape_refute::{holds, is_proper, refuses};
use shape_space::P2;
use std::alloc::Global;
use std::io;

// Gives a segment a further point, and tells whether it is taken. Where it is not, the evidence is judged for the run with it.
fn give(segment: &mut Segment, run: &mut Vec<P2>, axis: usize, p: P2) -> io::Result<&'static str>
    requires { axis < 2 }
{
    if !is_small(p) || !is_close(segment.last(), p) {
        return Ok(" far");
    }
    run.push(p)?;
    let refusal = segment.refusal(p);
    if segment.push(p) {
        return Ok(" taken");
    }
    let is_shown = match refusal {
        Some(why) => refuses(run, axis, &why),
        None => false,
    };
    run.pop();
    Ok(if is_shown { " refused" } else { " left out" })
}

// Whether the line of a segment is proper and holds each point of its run.
fn is_good(segment: &Segment, run: &[P2]) -> bool {
    let line = segment.naive();
    for p in run {
        if !holds(&line, *p) {
            return false;
        }
    }
    is_proper::<P2>(&line)
}

/// Whether a segment takes each of some points, and whether its line is good. An axis is told, and then the points.
pub(crate) fn tell_segment(alloc: Global, numbers: &[i64]) -> io::Result<String> {
    let axis = usize::from(number(numbers, 0) != 0);
    let given = points(alloc, numbers, 1)?;
    let mut run = Vec::new(alloc);
    let mut text = String::new(alloc);
    if given.is_empty() || !is_small(given[0]) {
        return Ok(text);
    }
    let mut segment = Segment::start(given[0], axis);
    run.push(given[0])?;
    for p in &given[1..] {
        text.push_str(give(&mut segment, &mut run, axis, *p)?)?;
    }
    write!(text, ", good {}", is_good(&segment, &run))?;
    Ok(text)
}
