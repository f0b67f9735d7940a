//! Systematic changes of a report: of each line, and of its length. Each is judged by the check that the case runs.
//! A further change of each line is one more part of `tell_line`.
use crate::case::{Case, answer_of};
use crate::changes::{Change, changed, digits_of, lines_of};
use std::alloc::Global;
use std::io;

/// What the run of a case writes where `b` has this text, without the line feed at its end.
pub(crate) fn verdict(alloc: Global, case: &Case, b: &[u8]) -> io::Result<String> {
    let answer = answer_of(alloc, case, b)?;
    let Ok(text) = str::from_utf8(answer.text.as_slice()) else {
        return Ok(answer.end);
    };
    if text.is_empty() {
        return Ok(answer.end);
    }
    Ok(String::from_str(alloc, text.trim_end())?)
}

/// What is said of a report with one change.
pub(crate) fn judged(
    alloc: Global,
    case: &Case,
    lines: &[&[u8]],
    at: usize,
    change: Change<'_>,
) -> io::Result<String> {
    verdict(alloc, case, changed(alloc, lines, at, change)?.as_slice())
}

// Tells what is said where a line is left out, doubled, exchanged with the next, and where each of its digits is raised.
fn tell_line(
    rt: &impl Print,
    alloc: Global,
    case: &Case,
    lines: &[&[u8]],
    at: usize,
) -> io::Result<()> {
    let without = judged(alloc, case, lines, at, Change::LeftOut)?;
    let twice = judged(alloc, case, lines, at, Change::Doubled)?;
    let exchanged = judged(alloc, case, lines, at, Change::Exchanged)?;
    let line = lines.get(at).copied().unwrap_or_default();
    let mut text = format!(in alloc;
        "{}: without it {without}, twice {twice}, behind the next {exchanged}, raised",
        at.saturating_add(1)
    )?;
    for place in 0..digits_of(line) {
        let raised = judged(alloc, case, lines, at, Change::Raised(place))?;
        write!(text, " {raised},")?;
    }
    println!(rt; "{text}")
}

/// Tells what is said of each report that differs from `b` in one small way, line by line.
pub(crate) fn forge(rt: &impl Print, alloc: Global, case: &Case) -> io::Result<()> {
    let lines = lines_of(alloc, case.b.as_slice())?;
    for at in 0..lines.len() {
        tell_line(rt, alloc, case, lines.as_slice(), at)?;
    }
    Ok(())
}

/// Tells what is said of each front of `b`, once for all that get the same answer.
pub(crate) fn tell_fronts(rt: &impl Print, alloc: Global, case: &Case) -> io::Result<()> {
    let mut last = String::new(alloc);
    for len in 0..case.b.len() {
        let said = verdict(alloc, case, &case.b.as_slice()[..len])?;
        if said.as_str() != last.as_str() {
            println!(rt; "from {len} bytes on: {said}")?;
            last = said;
        }
    }
    Ok(())
}
