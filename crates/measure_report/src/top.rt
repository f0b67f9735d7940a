//! The top call: what words ask for of the report that the last one names is written: the table of its objects, or the numbers of
//! its whole object. What each outcome means for the desk stands in `report_lines`.
ghost use Rattle.std.specs.Prelude.{◌≡◌, ◌≢◌, ◌↔◌, ℕ, List};
ghost use Rattle.shape_desk.specs.Files.{KeepsFiles, texts};
ghost use Rattle.measure_report.specs.Wholes.{RanFor};
ghost use Rattle.measure_report.specs.Words.{asking, IsAsked};

use crate::tables::Tables;
use crate::wanted::{Wanted, read_words};
use crate::wholes::Wholes;
use report_lines::{Outcome, run_named, run_solid};
use shape_desk::Desk;
use std::alloc::Global;

/// What the program says of words that it does not take.
pub const USAGE: &str =
    "usage: shape measure [moments] [thickness] [spacing X Y Z] REPORT, shape measure whole REPORT";

// Makes what is wanted of the report in the file with this name, and writes it.
fn run_wanted<D: Desk>(alloc: Global, wanted: Wanted, name: &[u8], desk: &mut D) -> Outcome
    ensures ran { RanFor wanted name.now (D.state desk.old) (D.state desk.new) result }
    ensures kept { KeepsFiles (D.state desk.old) (D.state desk.new) }
{
    match wanted {
        Wanted::Table(groups) => match groups.spacing {
            Some(_) => run_solid(alloc, &Tables { groups }, name, desk),
            None => run_named(alloc, &Tables { groups }, name, desk),
        },
        Wanted::Whole => run_named(alloc, &Wholes, name, desk),
    }
}

/// Does what the words of a command line say, without the program's name: the last one is the name of a report's file. The table
/// of its objects is written, with the groups of columns that the words before it ask for; or, behind the word `whole`, the
/// numbers of the whole object. Behind the word `spacing` stand the sides of a voxel, each from 1 to 1000: surfaces and volumes
/// are told in their unit and no distance is, and a report of a flat picture is refused. A report in a file that is called like
/// such a word is named `./whole` behind another word.
///
/// The words are judged first, without memory and without the desk. Nothing is written before the whole report was read. The
/// report is not checked: what it claims is measured as it stands. What it gives outside the box of its heading is not
/// measured. Want of memory may be answered at any time after the words, and comes for a report of more than 2^61 lines as
/// well.
pub fn run<D: Desk>(alloc: Global, words: &[Vec<u8>], desk: &mut D) -> Outcome
    ensures usage { (result ≡ Outcome.Usage)
        ↔ ((w : Wanted) (name : List ℕ) → IsAsked w → texts words.now ≢ asking w name) }
    ensures untouched { result ≡ Outcome.Usage → desk.new ≡ desk.old }
    ensures ran { (w : Wanted) (name : List ℕ) → IsAsked w → texts words.now ≡ asking w name
        → RanFor w name (D.state desk.old) (D.state desk.new) result }
    ensures kept { KeepsFiles (D.state desk.old) (D.state desk.new) }
{
    match read_words(words) {
        Some((wanted, name)) => run_wanted(alloc, wanted, name, desk),
        None => Outcome::Usage,
    }
}
