//! The runs: what a program makes of the report in a file is written, whatever its length, up to a bound, or of one space alone.
//! What each outcome means for the desk stands in `specs/Runs.antt`.
ghost use Rattle.std.specs.Prelude.{◌≡◌, ◌≤◌, ◌↔◌, IsTrue, length};
ghost use Rattle.shape_desk.specs.Desk.{OnlyReads};
ghost use Rattle.shape_desk.specs.Files.{KeepsFiles};
ghost use Rattle.report_lines.specs.Made.{about};
ghost use Rattle.report_lines.specs.Runs.{FileMade, Ran, RanUpTo, RanSolid, RanFlat};

use crate::fault::ReportFault;
use crate::make::{Made, make};
use crate::making::Making;
use crate::outcome::{Outcome, refused};
use shape_desk::{Desk, Place, put_all};
use std::alloc::Global;

// Makes the bytes of the report in a file.
fn make_file<M: Making, D: Desk>(
    alloc: Global,
    making: &M,
    name: &[u8],
    desk: &mut D,
) -> Result<Made, ReportFault>
    ensures answer { FileMade (λ v. about v.axes (M.makes making.now)) (λ v. v.bytes.items) name.now
        (D.state desk.old) (D.state desk.new) result }
    ensures only { OnlyReads (D.state desk.old) (D.state desk.new) }
{
    match desk.begin(Place::Report, name) {
        Ok(()) => make(alloc, making, desk),
        Err(_) => Err(ReportFault::ReadFault),
    }
}

/// Makes the bytes of the report in the file with this name, and writes them.
///
/// Nothing is written before the whole report was read. The report is not checked: what it claims is taken as it stands, and
/// what it says of points outside the box of its heading does not count. Want of memory may be answered at any time, and
/// comes for a report of more than 2^61 lines as well.
pub fn run_named<M: Making, D: Desk>(
    alloc: Global,
    making: &M,
    name: &[u8],
    desk: &mut D,
) -> Outcome
    ensures ran { Ran (M.makes making.now) name.now (D.state desk.old) (D.state desk.new) result }
    ensures kept { KeepsFiles (D.state desk.old) (D.state desk.new) }
{
    let made = match make_file(alloc, making, name, desk) {
        Ok(made) => made,
        Err(fault) => return refused(fault),
    };
    match put_all(made.bytes.as_slice(), desk) {
        Ok(()) => Outcome::Done,
        Err(_) => Outcome::WriteFault,
    }
}

// Whether so many bytes at most are made, or they are made of a volume.
fn is_small(made: &Made, most: usize) -> bool
    ensures { IsTrue result ↔ (made.now.axes ≡ 2 → length made.now.bytes.items ≤ most) }
{
    made.axes != 2 || made.bytes.len() <= most
}

/// The same, but where more than so many bytes are made of a flat picture's report nothing is written, and this is told.
pub fn run_up_to<M: Making, D: Desk>(
    alloc: Global,
    making: &M,
    most: usize,
    name: &[u8],
    desk: &mut D,
) -> Outcome
    ensures ran { RanUpTo most (M.makes making.now) name.now
        (D.state desk.old) (D.state desk.new) result }
    ensures kept { KeepsFiles (D.state desk.old) (D.state desk.new) }
{
    let made = match make_file(alloc, making, name, desk) {
        Ok(made) => made,
        Err(fault) => return refused(fault),
    };
    if !is_small(&made, most) {
        return Outcome::TooLarge;
    }
    match put_all(made.bytes.as_slice(), desk) {
        Ok(()) => Outcome::Done,
        Err(_) => Outcome::WriteFault,
    }
}

/// The same, but where the report is that of a flat picture nothing is written, and this is told.
pub fn run_solid<M: Making, D: Desk>(
    alloc: Global,
    making: &M,
    name: &[u8],
    desk: &mut D,
) -> Outcome
    ensures ran { RanSolid (M.makes making.now) name.now
        (D.state desk.old) (D.state desk.new) result }
    ensures kept { KeepsFiles (D.state desk.old) (D.state desk.new) }
{
    let made = match make_file(alloc, making, name, desk) {
        Ok(made) => made,
        Err(fault) => return refused(fault),
    };
    if made.axes == 2 {
        return Outcome::NotSolid;
    }
    match put_all(made.bytes.as_slice(), desk) {
        Ok(()) => Outcome::Done,
        Err(_) => Outcome::WriteFault,
    }
}

/// The same for what is made of flat pictures alone: of the report of a volume nothing is written, and this is told.
pub fn run_flat<M: Making, D: Desk>(
    alloc: Global,
    making: &M,
    most: usize,
    name: &[u8],
    desk: &mut D,
) -> Outcome
    ensures ran { RanFlat most (M.makes making.now) name.now
        (D.state desk.old) (D.state desk.new) result }
    ensures kept { KeepsFiles (D.state desk.old) (D.state desk.new) }
{
    let made = match make_file(alloc, making, name, desk) {
        Ok(made) => made,
        Err(fault) => return refused(fault),
    };
    if made.axes != 2 {
        return Outcome::NotFlat;
    }
    if made.bytes.len() > most {
        return Outcome::TooLarge;
    }
    match put_all(made.bytes.as_slice(), desk) {
        Ok(()) => Outcome::Done,
        Err(_) => Outcome::WriteFault,
    }
}
