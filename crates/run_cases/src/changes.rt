//! Changes of a text at one of its lines. A further change is one more variant, and its row of `put_changed`.
use std::alloc::Global;
use std::io;

/// What becomes of a line: another text stands there, or nothing, or the line twice; or the next line comes before it; or its
/// digit at this place, of all its digits, is raised by one, where it is no 9.
#[derive(Clone, Copy)]
pub(crate) enum Change<'a> {
    Replaced(&'a str),
    LeftOut,
    Doubled,
    Exchanged,
    Raised(usize),
}

/// The lines of a text, each without its line feed; the last one, behind the last line feed, is left out where it is empty.
pub(crate) fn lines_of(alloc: Global, text: &[u8]) -> io::Result<Vec<&[u8]>> {
    let mut lines = Vec::new(alloc);
    for line in text.split(|&c| c == b'\n') {
        lines.push(line)?;
    }
    if text.is_empty() || text.ends_with(b"\n".as_slice()) {
        lines.pop();
    }
    Ok(lines)
}

/// How many digits a line has.
pub(crate) fn digits_of(line: &[u8]) -> usize {
    line.iter().filter(|c| c.is_ascii_digit()).count()
}

// Puts a line whose digit at this place is raised.
fn put_raised(text: &mut Vec<u8>, line: &[u8], place: usize) -> io::Result<()> {
    let mut count: usize = 0;
    for byte in line {
        let is_raised = byte.is_ascii_digit() && count == place;
        text.push(if is_raised {
            byte.wrapping_add(1)
        } else {
            *byte
        })?;
        count = count.saturating_add(usize::from(byte.is_ascii_digit()));
    }
    Ok(text.push(b'\n')?)
}

// Puts a line and its line feed.
fn put(text: &mut Vec<u8>, line: &[u8]) -> io::Result<()> {
    text.extend_from_slice(line)?;
    Ok(text.push(b'\n')?)
}

// Puts a line that is changed; `next` is the line behind it.
fn put_changed(text: &mut Vec<u8>, line: &[u8], next: &[u8], change: Change<'_>) -> io::Result<()> {
    match change {
        Change::Replaced(other) => put(text, other.as_bytes()),
        Change::LeftOut => Ok(()),
        Change::Doubled => {
            put(text, line)?;
            put(text, line)
        }
        Change::Exchanged => {
            put(text, next)?;
            put(text, line)
        }
        Change::Raised(place) => put_raised(text, line, place),
    }
}

/// The text of these lines with a change at the line of this number, from 0 on. Each line gets its line feed.
pub(crate) fn changed(
    alloc: Global,
    lines: &[&[u8]],
    at: usize,
    change: Change<'_>,
) -> io::Result<Vec<u8>> {
    let mut text = Vec::new(alloc);
    let behind = at.saturating_add(1);
    let next = lines.get(behind).copied().unwrap_or_default();
    for (i, line) in lines.iter().enumerate() {
        if i == at {
            put_changed(&mut text, line, next, change)?;
        } else if i != behind || !matches!(change, Change::Exchanged) {
            put(&mut text, line)?;
        }
    }
    Ok(text)
}
