//! A run of the program, over any desk: what its words ask for is done, and what the user sees of it is answered.
//! A further product or command changes nothing here; a further rule is one more box.
ghost use Rattle.std.specs.Prelude.{◌≡◌, ◌≢◌, ◌∷◌, ℕ, List, IfOk};
ghost use Rattle.std.specs.Option.{option_map};
ghost use Rattle.shape_terms.specs.Shelves.{names_of};
ghost use Rattle.shape_rules.specs.Ruled.{rules_on};
ghost use Rattle.shape_desk.specs.Desk.{DeskState};
ghost use Rattle.shape_desk.specs.Files.{KeepsFiles, texts};
ghost use Rattle.shape_cli.specs.Rules.{program_rules};
ghost use Rattle.shape_cli.specs.Commands.{IsNoForm};
ghost use Rattle.shape.specs.Pages.{IsWayTo};
ghost use Rattle.shape.specs.Products.{product_word};
ghost use Rattle.shape.specs.Runs.{HasEnded};
ghost use Rattle.shape.specs.Slips.{slip_told};

use crate::ending::Ending;
use crate::page::{Page, page_of};
use crate::product::{Product, product_of};
use crate::slip::{Slip, slip_in};
use shape_cli::{Outcome, is_no_form, run, shelf};
use shape_desk::Desk;
use shape_rules::{CurveEnds, FewEnds, NoEnds, Shelf};
use std::alloc::{AllocError, Global};

// How a run ends whose words are of no form and begin with the word of no product: nothing was done.
fn refusing() -> Ending
    ensures { (words : List (List ℕ)) (desk : DeskState)
        → ((p : Product) (rest : List (List ℕ)) → words ≢ product_word p ∷ rest)
        → ((p : Page) → IsWayTo p words → ⊥)
        → IsNoForm (names_of program_rules) words → HasEnded words desk desk result }
{
    Ending::of_command(Outcome::Usage)
}

// How a run of words that spell a command ends for which there is no memory, before anything is done.
fn lacking() -> Ending
    ensures { (words : List (List ℕ)) (desk : DeskState)
        → (IsNoForm (names_of program_rules) words → ⊥) → HasEnded words desk desk result }
{
    Ending::of_command(Outcome::NoMemory)
}

// Runs the words of a command by the rules on a shelf, which are those of the program.
fn run_by<D: Desk>(alloc: Global, words: &[Vec<u8>], desk: &mut D, shelf: Shelf) -> Ending
    requires none { (p : Product) (rest : List (List ℕ))
        → texts words.now ≢ product_word p ∷ rest }
    requires page { (p : Page) → IsWayTo p (texts words.now) → ⊥ }
    requires rules { rules_on means shelf ≡ program_rules }
    ensures ended { HasEnded (texts words.now) (D.state desk.old) (D.state desk.new) result }
    ensures kept { KeepsFiles (D.state desk.old) (D.state desk.new) }
{
    let outcome = run(alloc, words, desk, shelf);
    Ending::of_command(outcome)
}

// Runs words that spell a command, by the rules `none`, `curve` and `few`; the last marks two points at most.
fn run_spelled<D: Desk>(alloc: Global, words: &[Vec<u8>], desk: &mut D) -> Ending
    requires none { (p : Product) (rest : List (List ℕ))
        → texts words.now ≢ product_word p ∷ rest }
    requires page { (p : Page) → IsWayTo p (texts words.now) → ⊥ }
    requires form { IsNoForm (names_of program_rules) (texts words.now) → ⊥ }
    ensures ended { HasEnded (texts words.now) (D.state desk.old) (D.state desk.new) result }
    ensures kept { KeepsFiles (D.state desk.old) (D.state desk.new) }
{
    let none = Box::new(alloc, NoEnds);
    let curve = Box::new(alloc, CurveEnds);
    let few = Box::new(alloc, FewEnds::new(2));
    let (Ok(none), Ok(curve), Ok(few)) = (none, curve, few) else {
        return lacking();
    };
    match shelf(alloc, none, curve, few) {
        Ok(shelf) => run_by(alloc, words, desk, shelf),
        Err(_) => lacking(),
    }
}

// Runs the words of a command: they are judged before memory is taken.
fn run_command<D: Desk>(alloc: Global, words: &[Vec<u8>], desk: &mut D) -> Ending
    requires none { (p : Product) (rest : List (List ℕ))
        → texts words.now ≢ product_word p ∷ rest }
    requires page { (p : Page) → IsWayTo p (texts words.now) → ⊥ }
    ensures ended { HasEnded (texts words.now) (D.state desk.old) (D.state desk.new) result }
    ensures kept { KeepsFiles (D.state desk.old) (D.state desk.new) }
{
    if is_no_form(words) {
        return refusing();
    }
    run_spelled(alloc, words, desk)
}

// Makes a product by the words behind its own.
fn run_product<D: Desk>(alloc: Global, product: Product, rest: &[Vec<u8>], desk: &mut D) -> Ending
    requires page { (p : Page) → IsWayTo p (product_word product ∷ texts rest.now) → ⊥ }
    ensures ended { HasEnded (product_word product ∷ texts rest.now)
        (D.state desk.old) (D.state desk.new) result }
    ensures kept { KeepsFiles (D.state desk.old) (D.state desk.new) }
{
    let outcome = product.run(alloc, rest, desk);
    Ending::of_product(outcome, product.usage())
}

// Runs words that ask for no page.
fn run_work<D: Desk>(alloc: Global, words: &[Vec<u8>], desk: &mut D) -> Ending
    requires page { (p : Page) → IsWayTo p (texts words.now) → ⊥ }
    ensures ended { HasEnded (texts words.now) (D.state desk.old) (D.state desk.new) result }
    ensures kept { KeepsFiles (D.state desk.old) (D.state desk.new) }
{
    match product_of(words) {
        Some((product, rest)) => run_product(alloc, product, rest, desk),
        None => run_command(alloc, words, desk),
    }
}

// A page of the program itself is printed, words behind that of a product are run by the product's own call, and all others as those of a command.
fn run_asked<D: Desk>(alloc: Global, words: &[Vec<u8>], desk: &mut D) -> Ending
    ensures ended { HasEnded (texts words.now) (D.state desk.old) (D.state desk.new) result }
    ensures kept { KeepsFiles (D.state desk.old) (D.state desk.new) }
{
    match page_of(words) {
        Some(page) => page.print(desk),
        None => run_work(alloc, words, desk),
    }
}

/// What a run tells its user.
#[derive(Clone, Copy, Debug, PartialEq, Eq)]
pub struct Told<'a> {
    /// How it ended.
    pub ending: Ending,
    /// The slip in its words, where these are of no form or a file that they name was not read.
    pub slip: Result<Option<Slip<'a>>, AllocError>,
}

// The slip that is told of a run with this status.
fn slip_of<'a>(
    alloc: Global,
    status: u8,
    words: &'a [Vec<u8>],
) -> Result<Option<Slip<'a>>, AllocError>
    ensures { IfOk result (λ slip. option_map (λ s. (s.word.now, s.nearest.now)) slip
        ≡ slip_told status (texts words.now)) }
{
    if status == 2 || status == 4 {
        return slip_in(alloc, words);
    }
    Ok(None)
}

/// Does what the words of a command line say, without the program's name: a page of the program itself is printed, those behind
/// the word of a product are run by the product's own call, and all others as those of a command. What the user sees is that of its outcome,
/// and where the words are of no form, or a file was not read, the first slip in them. An error says that there was no memory to look for one.
///
/// The status 2 comes exactly where the words are of no form, for all words and whatever memory there is.
pub fn run_words<'a, D: Desk>(alloc: Global, words: &'a [Vec<u8>], desk: &mut D) -> Told<'a>
    ensures ended { HasEnded (texts words.now) (D.state desk.old) (D.state desk.new) result.ending }
    ensures kept { KeepsFiles (D.state desk.old) (D.state desk.new) }
    ensures slip { IfOk result.slip (λ slip. option_map (λ s. (s.word.now, s.nearest.now)) slip
        ≡ slip_told result.ending.status (texts words.now)) }
{
    let ending = run_asked(alloc, words, desk);
    let slip = slip_of(alloc, ending.status, words);
    Told { ending, slip }
}
