//! The programs that a case may run, each by its `run`, with the words of a command line.
//! A further program is one more row of `ended`.
use crate::case::wanting;
use crate::finders::found;
use shape_cli::shelf;
use shape_desk::Desk;
use shape_rules::{CurveEnds, FewEnds, NoEnds};
use std::alloc::Global;
use std::fmt::Debug;
use std::io;

// The words of a command line.
fn words_of(alloc: Global, line: &str) -> io::Result<Vec<Vec<u8>>> {
    let mut words = Vec::new(alloc);
    for word in line.split_whitespace() {
        words.push(word.as_bytes().to_vec(alloc)?)?;
    }
    Ok(words)
}

// How a run ended, as its type spells it.
fn told(alloc: Global, outcome: &impl Debug) -> io::Result<String> {
    Ok(format!(in alloc; "{outcome:?}")?)
}

// Runs the words of `shape`, with the rules of the program.
fn shape_ended<D: Desk>(alloc: Global, words: &[Vec<u8>], desk: &mut D) -> io::Result<String> {
    let none = Box::new(alloc, NoEnds)?;
    let curve = Box::new(alloc, CurveEnds)?;
    let few = Box::new(alloc, FewEnds::new(2))?;
    let shelf = shelf(alloc, none, curve, few).map_err(wanting)?;
    told(alloc, &shape_cli::run(alloc, words, desk, shelf))
}

/// Runs a command line over a desk, and says how it ended. Behind the words `draw`, `measure` and `mask` stand those of the
/// programs that make something of a report, behind `find` a word and numbers, of which a call finds something; all others are words of `shape`.
pub(crate) fn ended<D: Desk>(alloc: Global, line: &str, desk: &mut D) -> io::Result<String> {
    let (program, rest) = line.split_once(' ').unwrap_or((line, ""));
    match program {
        "draw" => told(
            alloc,
            &draw_report::run(alloc, &words_of(alloc, rest)?, desk),
        ),
        "measure" => told(
            alloc,
            &measure_report::run(alloc, &words_of(alloc, rest)?, desk),
        ),
        "mask" => told(alloc, &masking::run(alloc, &words_of(alloc, rest)?, desk)),
        "find" => found(alloc, rest),
        _ => shape_ended(alloc, &words_of(alloc, line)?, desk),
    }
}
