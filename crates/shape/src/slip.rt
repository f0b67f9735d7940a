//! A slip in the words of a command line: a word that is near to one that forms have at its place.
//! How near it may be stands here; the words of forms stand in `own_words`.
ghost use Rattle.std.specs.Prelude.{◌≡◌, IfOk, map};
ghost use Rattle.std.specs.Option.{option_map};
ghost use Rattle.shape_desk.specs.Files.{texts};
ghost use Rattle.shape.specs.Slips as slips;

use crate::own_words::{behind, is_one_of};
use std::alloc::{AllocError, Global};
use strsim::generic_levenshtein;

/// A word that no form has at its place, and the nearest one that some form has there.
#[derive(Clone, Copy, Debug, PartialEq, Eq)]
pub struct Slip<'a> {
    /// The word.
    pub word: &'a [u8],
    /// The nearest one.
    pub nearest: &'static str,
}

// The first of these forms' words that is so many edits away.
fn first_away(
    alloc: Global,
    away: usize,
    word: &[u8],
    forms: &[&'static str],
) -> Result<Option<&'static str>, AllocError>
    ensures { IfOk result (λ found. option_map (λ form. form.now) found
        ≡ slips.first_away away word.now (map (λ form. form.now) forms.now)) }
{
    for form in forms {
        let edits = generic_levenshtein(alloc, word, form.as_bytes())?;
        if edits == away && away < word.len() {
            return Ok(Some(*form));
        }
    }
    Ok(None)
}

// What is nearest among forms' words to a word that is none of them.
fn nearest(
    alloc: Global,
    word: &[u8],
    forms: &[&'static str],
) -> Result<Option<&'static str>, AllocError>
    ensures { IfOk result (λ found. option_map (λ form. form.now) found
        ≡ slips.nearest word.now (map (λ form. form.now) forms.now)) }
{
    if is_one_of(word, forms) {
        return Ok(None);
    }
    match first_away(alloc, 1, word, forms)? {
        Some(form) => Ok(Some(form)),
        None => first_away(alloc, 2, word, forms),
    }
}

/// The first slip in the words.
pub(crate) fn slip_in<'a>(
    alloc: Global,
    words: &'a [Vec<u8>],
) -> Result<Option<Slip<'a>>, AllocError>
    ensures { IfOk result (λ slip. option_map (λ s. (s.word.now, s.nearest.now)) slip
        ≡ slips.slip_in (texts words.now)) }
{
    for i in 0..words.len() {
        let word = words[i].as_slice();
        if let Some(nearest) = nearest(alloc, word, behind(&words[..i]).texts())? {
            return Ok(Some(Slip { word, nearest }));
        }
    }
    Ok(None)
}
