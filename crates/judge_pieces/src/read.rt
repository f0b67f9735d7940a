//! Reading the fields of a line behind its first word, one after another.
//! A further kind of line is one more case of `read_fields` and a function that reads its fields.
ghost use Rattle.piece_terms.specs.Lines.{Kind, table};
ghost use Rattle.judge_pieces.specs.LineOf.{split_of};
ghost use Rattle.report_text.specs.Reading.{ReadsKind, ReadsFields};

use crate::line::PieceLine;
use report_text::field::{count, flat_axis, flat_coefficients, point, side, signed};
use report_text::{Words, read_why};
use shape_crack::Crack;
use shape_refute::{Naive, Refusal, Turn};

// Reads the fields of a `pieces` line. Reports of this kind have the number 1.
fn pieces(words: &mut Words) -> Option<PieceLine>
    ensures { ReadsKind table split_of Kind.Pieces words.old words.new result }
{
    words.skip(b"1")?;
    let sides = point(words)?;
    Some(PieceLine::Pieces { sides })
}

// Reads the fields of a `chain` line.
fn chain(words: &mut Words) -> Option<PieceLine>
    ensures { ReadsKind table split_of Kind.Chain words.old words.new result }
{
    let p = point(words)?;
    let side = side(words)?;
    let points = count(words)?;
    let pieces = count(words)?;
    Some(PieceLine::Chain {
        start: Crack { p, side },
        points,
        pieces,
    })
}

// Reads the fields of a `piece` line.
fn piece(words: &mut Words) -> Option<PieceLine>
    ensures { ReadsKind table split_of Kind.Piece words.old words.new result }
{
    let first = count(words)?;
    let last = count(words)?;
    let axis = flat_axis(words)?;
    let a = flat_coefficients(words)?;
    let mu = signed(words)?;
    Some(PieceLine::Piece {
        first,
        last,
        line: Naive { a, mu, axis },
    })
}

// Reads the fields of a `turn` line.
fn turn(words: &mut Words) -> Option<PieceLine>
    ensures { ReadsKind table split_of Kind.Turn words.old words.new result }
{
    let axis = flat_axis(words)?;
    let i = count(words)?;
    let j = count(words)?;
    Some(PieceLine::Gap {
        axis,
        why: Refusal::Turned(Turn { i, j }),
    })
}

// Reads the fields of a `cut` line.
fn cut(words: &mut Words) -> Option<PieceLine>
    ensures { ReadsKind table split_of Kind.Cut words.old words.new result }
{
    let axis = flat_axis(words)?;
    let why = read_why(words, 2)?;
    Some(PieceLine::Gap {
        axis,
        why: Refusal::Cut(why),
    })
}

/// Reads the fields of a line whose first word is given.
pub(crate) fn read_fields(word: &[u8], words: &mut Words) -> Option<PieceLine>
    ensures { ReadsFields table split_of word.now words.old words.new result }
{
    if word == b"pieces".as_slice() {
        return pieces(words);
    }
    if word == b"chain".as_slice() {
        return chain(words);
    }
    if word == b"piece".as_slice() {
        return piece(words);
    }
    if word == b"turn".as_slice() {
        return turn(words);
    }
    if word == b"cut".as_slice() {
        return cut(words);
    }
    if word == b"end".as_slice() {
        return Some(PieceLine::End);
    }
    None
}
