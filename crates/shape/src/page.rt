//! The pages that the program prints of itself: the words that ask for each, and what it says.
//! A further topic is a variant, a line of each table and a text in `page_text.rt`.
ghost use Rattle.std.specs.Prelude.{◌≡◌, ◌≢◌, ◌∷◌, [], List, ℕ, MatchOption};
ghost use Rattle.shape_desk.specs.Desk.{DeskState};
ghost use Rattle.shape_desk.specs.Files.{KeepsFiles, texts};
ghost use Rattle.shape.specs.Pages.{topic_word, IsWayTo, page_text};
ghost use Rattle.shape.specs.Runs.{PrintsPage};
ghost use Rattle.shape.specs.declared.page.Page.TheVariants as page;

use crate::ending::Ending;
use crate::page_text::{
    ANALYSE, BALLS, CHECK, DRAW, EDGES, FORMS, MASK, MEASURE, PIECES, TRIAL, VERSION,
};
use shape_cli::Outcome;
use shape_desk::{Desk, put_all};

/// What a page says more of.
#[derive(Clone, Copy, Debug, PartialEq, Eq)]
pub enum Topic {
    /// Reports of an analysis.
    Analyse,
    /// Checks of a report.
    Check,
    /// Reports of the edges of a flat picture.
    Edges,
    /// Checks of such a report.
    CheckEdges,
    /// Reports of few straight pieces.
    Pieces,
    /// Checks of such a report.
    CheckPieces,
    /// Reports of balls.
    Balls,
    /// Checks of such a report.
    CheckBalls,
    /// Drawings of a report.
    Draw,
    /// Tables of a report.
    Measure,
    /// Masks of a report.
    Mask,
    /// Pictures of a seed.
    Trial,
}

/// A page that the program prints of itself.
#[derive(Clone, Copy, Debug, PartialEq, Eq)]
pub enum Page {
    /// All forms of its words.
    Forms,
    /// Its version.
    Version,
    /// More of one topic.
    Of(Topic),
}

// The page that one word asks for.
fn page_called(word: &[u8]) -> Option<Page>
    ensures { MatchOption result ((p : Page) → IsWayTo p (word.now ∷ []) → ⊥)
        (λ p. IsWayTo p (word.now ∷ [])) }
{
    if word == b"--help".as_slice() || word == b"help".as_slice() {
        return Some(Page::Forms);
    }
    if word == b"--version".as_slice() {
        return Some(Page::Version);
    }
    None
}

// The topic that a word asks for.
fn topic_called(word: &[u8]) -> Option<Topic>
    ensures { MatchOption result ((t : Topic) → word.now ≢ topic_word t)
        (λ t. word.now ≡ topic_word t) }
{
    if word == b"analyse".as_slice() {
        return Some(Topic::Analyse);
    }
    if word == b"check".as_slice() {
        return Some(Topic::Check);
    }
    if word == b"edges".as_slice() {
        return Some(Topic::Edges);
    }
    if word == b"checkedges".as_slice() {
        return Some(Topic::CheckEdges);
    }
    if word == b"pieces".as_slice() {
        return Some(Topic::Pieces);
    }
    if word == b"checkpieces".as_slice() {
        return Some(Topic::CheckPieces);
    }
    if word == b"balls".as_slice() {
        return Some(Topic::Balls);
    }
    if word == b"checkballs".as_slice() {
        return Some(Topic::CheckBalls);
    }
    if word == b"draw".as_slice() {
        return Some(Topic::Draw);
    }
    if word == b"measure".as_slice() {
        return Some(Topic::Measure);
    }
    if word == b"mask".as_slice() {
        return Some(Topic::Mask);
    }
    if word == b"trial".as_slice() {
        return Some(Topic::Trial);
    }
    None
}

// The page that two words ask for.
fn page_of_two(first: &[u8], second: &[u8]) -> Option<Page>
    ensures { MatchOption result
        ((p : Page) → IsWayTo p (first.now ∷ second.now ∷ []) → ⊥)
        (λ p. IsWayTo p (first.now ∷ second.now ∷ [])) }
{
    let asked = first == b"help".as_slice();
    if asked && let Some(topic) = topic_called(second) {
        return Some(Page::Of(topic));
    }
    if second == b"--help".as_slice() {
        let topic = topic_called(first)?;
        return Some(Page::Of(topic));
    }
    None
}

/// The page that the words ask for.
pub(crate) fn page_of(words: &[Vec<u8>]) -> Option<Page>
    ensures { MatchOption result ((p : Page) → IsWayTo p (texts words.now) → ⊥)
        (λ p. IsWayTo p (texts words.now)) }
{
    match words {
        [word] => page_called(word.as_slice()),
        [first, second] => page_of_two(first.as_slice(), second.as_slice()),
        _ => None,
    }
}

// What the page of a topic says.
fn topic_text(topic: Topic) -> &'static str
    ensures { result.now ≡ page_text (page.Of topic) }
{
    match topic {
        Topic::Analyse => ANALYSE,
        Topic::Check => CHECK,
        Topic::Edges | Topic::CheckEdges => EDGES,
        Topic::Pieces | Topic::CheckPieces => PIECES,
        Topic::Balls | Topic::CheckBalls => BALLS,
        Topic::Draw => DRAW,
        Topic::Measure => MEASURE,
        Topic::Mask => MASK,
        Topic::Trial => TRIAL,
    }
}

impl Page {
    // What the page says.
    fn text(self) -> &'static str
        ensures { result.now ≡ page_text self }
    {
        match self {
            Page::Forms => FORMS,
            Page::Version => VERSION,
            Page::Of(topic) => topic_text(topic),
        }
    }

    /// Prints the page.
    pub(crate) fn print<D: Desk>(self, desk: &mut D) -> Ending
        ensures printed { PrintsPage (page_text self) (D.state desk.old) (D.state desk.new) result }
        ensures kept { KeepsFiles (D.state desk.old) (D.state desk.new) }
    {
        match put_all(self.text().as_bytes(), desk) {
            Ok(()) => Ending::of_command(Outcome::Done),
            Err(_) => Ending::of_command(Outcome::WriteFault),
        }
    }
}
