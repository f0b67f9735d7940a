//! Each call of a desk fails in turn, while a case runs: the run tells the fault, what it wrote is the front of the right answer,
//! and a further run over the same desk gives the right answer.
use crate::case::{Answer, Case, Fault, STEADY, desk_of};
use crate::programs::ended;
use shape_desk::MemoryDesk;
use std::alloc::Global;
use std::io;

/// Which calls of a desk fail.
#[derive(Clone, Copy, PartialEq, Eq)]
pub(crate) enum Calls {
    Reads,
    Writes,
}

// No run here makes so many calls.
const MANY: u64 = 9000;

// The call of this number fails.
fn fault_of(calls: Calls, number: u64, piece: usize) -> Fault {
    match calls {
        Calls::Reads => Fault {
            bad_read: number,
            piece,
            ..STEADY
        },
        Calls::Writes => Fault {
            bad_write: number,
            piece,
            ..STEADY
        },
    }
}

// Whether a run told the fault and wrote what it may.
fn is_well_failed(calls: Calls, end: &str, wrote: &[u8], right: &Answer) -> bool {
    match calls {
        Calls::Reads => end == "ReadFault" && wrote.is_empty(),
        Calls::Writes => {
            end == "WriteFault"
                && wrote.len() < right.text.len()
                && right.text.as_slice().starts_with(wrote)
        }
    }
}

// Whether a further run over the desk gives the right answer, behind all that was written before.
fn is_well_again(
    alloc: Global,
    case: &Case,
    right: &Answer,
    desk: &mut MemoryDesk,
) -> io::Result<bool> {
    let before = desk.output().len();
    let end = ended(alloc, case.words.as_str(), desk)?;
    let len = before.saturating_add(right.text.len());
    let is_written = desk.output().len() == len && desk.output().ends_with(right.text.as_slice());
    Ok(is_written && end.as_str() == right.end.as_str())
}

// How a run went whose call of some number fails.
enum Failing {
    // It has no such call, and gave the right answer.
    Through,
    // It told the fault, and a further run gave the right answer.
    Well,
    // Anything else.
    Badly,
}

fn went(
    alloc: Global,
    case: &Case,
    right: &Answer,
    calls: Calls,
    fault: Fault,
) -> io::Result<Failing> {
    let mut desk = desk_of(alloc, case, case.b.as_slice(), fault)?;
    let end = ended(alloc, case.words.as_str(), &mut desk)?;
    if end.as_str() == right.end.as_str() && desk.output() == right.text.as_slice() {
        return Ok(Failing::Through);
    }
    let is_well = is_well_failed(calls, end.as_str(), desk.output(), right);
    if is_well && is_well_again(alloc, case, right, &mut desk)? {
        return Ok(Failing::Well);
    }
    Ok(Failing::Badly)
}

// How many calls failed in turn, and each well; or the first that did not.
fn failed(
    alloc: Global,
    case: &Case,
    right: &Answer,
    calls: Calls,
    piece: usize,
) -> io::Result<Result<u64, u64>> {
    for number in 1..MANY {
        match went(alloc, case, right, calls, fault_of(calls, number, piece))? {
            Failing::Through => return Ok(Ok(number.saturating_sub(1))),
            Failing::Well => {}
            Failing::Badly => return Ok(Err(number)),
        }
    }
    Ok(Err(MANY))
}

/// Lets each call of a case fail in turn, to the end of the run, where no call moves more than `piece` bytes.
pub(crate) fn fail_each(
    rt: &impl Print,
    alloc: Global,
    case: &Case,
    piece: usize,
) -> io::Result<()> {
    let right = case.run(alloc)?;
    for (calls, name) in [(Calls::Reads, "reads"), (Calls::Writes, "writes")] {
        match failed(alloc, case, &right, calls, piece)? {
            Ok(count) => println!(rt; "each of {count} {name} of up to {piece} bytes fails well")?,
            Err(number) => println!(rt;
                "number {number} of the {name} of up to {piece} bytes does not fail well"
            )?,
        }
    }
    Ok(())
}
