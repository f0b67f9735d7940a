//! Runs the cases of files over desks in memory, and tells what each run writes and how it ends.
//! A further case is lines of a file in `data`, and of `stdout` what is wanted of it; `docs/CASES.md` says what a line may be.
#![tactic(auto)]

mod boxes;
mod case;
mod changes;
mod close;
mod escapes;
mod faults;
mod finders;
mod forging;
mod lines;
mod numbers;
mod programs;
mod runs;
mod script;
mod sums;
mod verdicts;

use script::Script;
use std::{env, fs, io};

// Runs the cases of a text, from two empty files on.
fn run_text(rt: &HostRuntime, text: &str) -> io::Result<()> {
    let mut script = Script::new(rt.alloc());
    for line in text.lines() {
        script.take(rt, line)?;
    }
    Ok(())
}

fn main(rt: HostRuntime) -> io::Result<()> {
    for name in env::args(&rt)?.skip(1) {
        println!(rt; "== {name}")?;
        run_text(&rt, fs::read_to_string(&rt, name.as_str())?.as_str())?;
    }
    Ok(())
}
