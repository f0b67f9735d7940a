//! What is made of a report, and the words that ask for it.
//! A further thing is a variant, its words and an arm in `top`.
ghost use Rattle.std.specs.Prelude.{◌≡◌, ◌≢◌, ◌↔◌, ◌∷◌, ◌++◌, [], ℕ, List, Option, Some, IsTrue, false, MatchOption};
ghost use Rattle.shape_desk.specs.Files.{texts};
ghost use Rattle.measure_report.specs.Words.{word_where, spacing_words, wanted_words, asking, HasSides, IsAsked};
ghost use Rattle.measuring.specs.declared.spacing.Spacing as Program;

use crate::groups::Groups;
use measuring::Spacing;

/// What is made of a report.
#[derive(Clone, Copy, Debug, PartialEq, Eq)]
pub enum Wanted {
    /// The table of its objects, with these groups of columns.
    Table(Groups),
    /// The numbers of its whole object.
    Whole,
}

// Whether a word is this text.
fn is_text(word: &[u8], text: &[u8]) -> bool
    ensures { IsTrue result ↔ (word.now ≡ text.now) }
{
    word == text
}

// Whether this text is the only one of some words.
fn is_word(words: &[Vec<u8>], text: &[u8]) -> bool
    ensures { IsTrue result ↔ (texts words.now ≡ text.now ∷ []) }
{
    match words {
        [word] => is_text(word.as_slice(), text),
        _ => false,
    }
}

// Whether this text is the first of some words, and the words behind it where it is.
fn take_word<'a>(words: &'a [Vec<u8>], text: &[u8]) -> (bool, &'a [Vec<u8>])
    ensures words { texts words.now ≡ word_where result.0 text.now ++ texts result.1.now }
    ensures first { result.0 ≡ false → (rest : List (List ℕ)) → texts words.now ≢ text.now ∷ rest }
{
    match words {
        [word, rest @ ..] => {
            if is_text(word.as_slice(), text) {
                (true, rest)
            } else {
                (false, words)
            }
        }
        [] => (false, words),
    }
}

// The spacing that these four words ask for.
fn spacing_by(word: &[u8], x: &[u8], y: &[u8], z: &[u8]) -> Option<Spacing>
    ensures { MatchOption result ((o : Option Program.Spacing) → HasSides o
        → word.now ∷ x.now ∷ y.now ∷ z.now ∷ [] ≢ spacing_words o)
        (λ s. HasSides (Some s)
        × (word.now ∷ x.now ∷ y.now ∷ z.now ∷ [] ≡ spacing_words (Some s))) }
{
    if is_text(word, b"spacing") {
        Spacing::spelled(x, y, z)
    } else {
        None
    }
}

// The spacing that words ask for, where they ask for one or for none.
fn read_spacing(words: &[Vec<u8>]) -> Option<Option<Spacing>>
    ensures { MatchOption result
        ((o : Option Program.Spacing) → HasSides o → texts words.now ≢ spacing_words o)
        (λ o. HasSides o × (texts words.now ≡ spacing_words o)) }
{
    match words {
        [] => Some(None),
        [word, x, y, z] => Some(Some(spacing_by(
            word.as_slice(),
            x.as_slice(),
            y.as_slice(),
            z.as_slice(),
        )?)),
        _ => None,
    }
}

// What these words ask for, where no name of a file stands behind them.
fn asked_by(words: &[Vec<u8>]) -> Option<Wanted>
    ensures { MatchOption result ((w : Wanted) → IsAsked w → texts words.now ≢ wanted_words w)
        (λ w. IsAsked w × (texts words.now ≡ wanted_words w)) }
{
    if is_word(words, b"whole") {
        return Some(Wanted::Whole);
    }
    let (moments, behind) = take_word(words, b"moments");
    let (thickness, last) = take_word(behind, b"thickness");
    let spacing = read_spacing(last)?;
    Some(Wanted::Table(Groups {
        moments,
        thickness,
        spacing,
    }))
}

/// What the words before the last one ask for, and the last one: the name of a report's file.
pub(crate) fn read_words<'a>(words: &'a [Vec<u8>]) -> Option<(Wanted, &'a [u8])>
    ensures { MatchOption result
        ((w : Wanted) (name : List ℕ) → IsAsked w → texts words.now ≢ asking w name)
        (λ r. IsAsked r.0 × (texts words.now ≡ asking r.0 r.1.now)) }
{
    let (name, asked) = words.split_last()?;
    Some((asked_by(asked)?, name.as_slice()))
}
