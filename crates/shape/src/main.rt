//! The program `shape`: the words of the command line, the real desk, and what the user sees of the run.
//! All that it decides is decided by `run_words`, but where the system has no words for it; `host` is the trusted edge to the system.
#![tactic(auto)]

mod ending;
mod host;
mod own_words;
mod page;
mod page_text;
mod product;
mod program;
mod slip;

use ending::Ending;
use host::HostDesk;
use program::{Told, run_words};
use slip::Slip;
use std::alloc::AllocError;
use std::env::{self, Env};
use std::io;
use std::process::ExitCode;

// The words behind the program's name, as bytes.
fn words<R: Env + AllocGlobal>(rt: &R) -> io::Result<Vec<Vec<u8>>> {
    let mut words = Vec::new(rt.alloc());
    for word in env::args(rt)?.skip(1) {
        words.push(word.into_bytes())?;
    }
    Ok(words)
}

// Prints what went wrong.
fn complain<R: Eprint>(rt: &R, ending: Ending) -> io::Result<()> {
    let text = ending.text;
    match ending.number {
        Some(number) => eprintln!(rt; "shape: {text} {number}"),
        None => eprintln!(rt; "shape: {text}"),
    }
}

// Prints the slip in the words, where there is one.
fn point_out<R: Eprint>(rt: &R, slip: Result<Option<Slip<'_>>, AllocError>) -> io::Result<()> {
    match slip {
        Ok(Some(slip)) => {
            let word = str::from_utf8(slip.word).unwrap_or("");
            let nearest = slip.nearest;
            eprintln!(rt; "shape: no form has the word '{word}'; nearest: '{nearest}'")
        }
        Ok(None) => Ok(()),
        Err(_) => eprintln!(rt; "shape: no memory to look for the nearest word"),
    }
}

// Prints what a run tells.
fn tell<R: Eprint>(rt: &R, told: Told<'_>) -> io::Result<()> {
    complain(rt, told.ending)?;
    point_out(rt, told.slip)
}

// Runs the words of the command line, and prints what went wrong.
fn run_main(rt: &HostRuntime) -> u8 {
    let words = match words(rt) {
        Ok(words) => words,
        Err(error) => {
            let ending = Ending::without_words(&error);
            let _ = complain(rt, ending);
            return ending.status;
        }
    };
    let told = run_words(rt.alloc(), &words, &mut HostDesk::new(rt));
    let status = told.ending.status;
    if status >= 2 {
        // Where standard error takes nothing, the status alone tells.
        let _ = tell(rt, told);
    }
    status
}

fn main(rt: HostRuntime) -> ExitCode {
    ExitCode::from(run_main(&rt))
}
