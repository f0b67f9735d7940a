//! The top call: what the words ask for is done by `making`, `verdict` or `trial`.
//! What each outcome means for the desk stands in `specs/Runs.antt`.
ghost use Rattle.std.specs.Prelude.{◌≡◌, ◌↔◌, ◌⊎◌, IsTrue};
ghost use Rattle.shape_terms.specs.Shelves.{names_of};
ghost use Rattle.shape_rules.specs.Ruled.{rules_on};
ghost use Rattle.shape_desk.specs.Files.{texts, KeepsFiles};
ghost use Rattle.shape_cli.specs.Commands.{IsNoForm, Asks};
ghost use Rattle.shape_cli.specs.Rules.{program_rules};
ghost use Rattle.shape_cli.specs.Runs.{Ran};

use crate::command::{Command, read_words};
use crate::making::make_file;
use crate::names::ProgramNames;
use crate::outcome::Outcome;
use crate::trial::try_seed;
use crate::verdict::check_file;
use shape_desk::Desk;
use shape_rules::Shelf;
use std::alloc::Global;

/// Whether the words are of no form by the rules of the program. It takes no memory, so it can be asked before there is a shelf.
pub fn is_no_form(words: &[Vec<u8>]) -> bool
    ensures { IsTrue result ↔ IsNoForm (names_of program_rules) (texts words.now) }
{
    read_words(words, &ProgramNames).is_none()
}

/// Does what the words of a command line say, without the program's name.
///
/// The words are judged first, without memory and without the desk; then the picture is read, or made of a seed; then, for a
/// check, the report is read; then the output is written. Want of memory may be answered at any time after the words.
/// Of a report that got its verdict, the bytes of its good lines were taken, and at most 2048 more.
/// The rule of an analysis is one on the shelf, that of a trial the last; its check goes by the rule that the report names.
pub fn run<D: Desk>(alloc: Global, words: &[Vec<u8>], desk: &mut D, mut shelf: Shelf) -> Outcome
    ensures usage { (result ≡ Outcome.Usage)
        ↔ IsNoForm (names_of (rules_on means shelf)) (texts words.now) }
    ensures untouched { result ≡ Outcome.Usage → desk.new ≡ desk.old }
    ensures ran { Asks (names_of (rules_on means shelf)) (texts words.now)
        (λ c. Ran (rules_on means shelf) c (D.state desk.old) (D.state desk.new) result)
        ⊎ IsNoForm (names_of (rules_on means shelf)) (texts words.now) }
    ensures kept { KeepsFiles (D.state desk.old) (D.state desk.new) }
{
    match read_words(words, &shelf) {
        Some(Command::Make { source, wanted }) => {
            make_file(alloc, source, wanted, &mut shelf, desk)
        }
        Some(
            Command::Check {
                source,
                kind,
                report,
            },
        ) => check_file(alloc, source, kind, report, &mut shelf, desk),
        Some(Command::Trial { kind, seed, side }) => {
            try_seed(alloc, kind, seed, side, &mut shelf, desk)
        }
        None => Outcome::Usage,
    }
}
