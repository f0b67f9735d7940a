//! Reading one line of a report: the inverse of its spelling.
//! A further kind of line is one more case of `fields` and of `any` or `later`; how the fields of a kind are read stands in `claim`.
ghost use Rattle.std.specs.Prelude.{◌≡◌, ◌≢◌, MatchOption};
ghost use Rattle.text_terms.specs.Tables.{kind_among};
ghost use Rattle.report_terms.specs.Kinds.{Kind, first_word};
ghost use Rattle.report_terms.specs.Lines as Terms;
ghost use Rattle.report_terms.specs.Lines.{IsLineOf, spelling};
ghost use Rattle.shape_report.specs.LineOf.{line_of};
ghost use Rattle.shape_report.specs.Reading.{HasNoThird, IsFrequent, ReadsFields, earlier};

use crate::claim::{
    contour, cut, end, face, kept, least, off, parts, patch, seg, shape, tip, turn,
};
pub(crate) use crate::claim::{at, del, near, on};
use crate::line::Line;
use report_text::Words;
use shape_space::Point;

/// The kinds of which reports have most lines.
#[derive(Clone, Copy)]
pub(crate) enum Frequent {
    /// A `near` line.
    Near,
    /// An `at` line.
    At,
    /// An `on` line.
    On,
    /// A `del` line.
    Del,
    /// A line of another kind, or none.
    Other,
}

// The kind that a first word tells, where it is one of those of which reports have most lines.
#[inline(always)]
pub(crate) fn told_by(word: &[u8]) -> Frequent
    ensures { IsFrequent word.now result }
{
    match word {
        b"near" => Frequent::Near,
        b"at" => Frequent::At,
        b"on" => Frequent::On,
        b"del" => Frequent::Del,
        _ => Frequent::Other,
    }
}

// Reads the fields of a line of one of the later kinds, of which `face` is the first.
fn later<P: Point>(word: &[u8], words: &mut Words) -> Option<Line<P>>
    requires { kind_among first_word earlier word.now ≡ None }
    ensures { ReadsFields P.DIM P.coords word.now words.old result }
{
    if word == b"face".as_slice() {
        return face(words);
    }
    if word == b"patch".as_slice() {
        return patch(words);
    }
    if word == b"on".as_slice() {
        return on(words);
    }
    if word == b"off".as_slice() {
        return off(words);
    }
    if word == b"del".as_slice() {
        return del(words);
    }
    if word == b"tip".as_slice() {
        return tip(words);
    }
    if word == b"kept".as_slice() {
        return kept(words);
    }
    if word == b"end".as_slice() {
        return end(words);
    }
    None
}

// Reads the fields of a line of any kind, whose first word is given.
#[inline(never)]
fn any<P: Point>(word: &[u8], words: &mut Words) -> Option<Line<P>>
    ensures { ReadsFields P.DIM P.coords word.now words.old result }
{
    if word == b"shape".as_slice() {
        return shape(words);
    }
    if word == b"parts".as_slice() {
        return parts(words);
    }
    if word == b"near".as_slice() {
        return near(words);
    }
    if word == b"contour".as_slice() {
        return contour(words);
    }
    if word == b"at".as_slice() {
        return at(words);
    }
    if word == b"seg".as_slice() {
        return seg(words);
    }
    if word == b"least".as_slice() {
        return least(words);
    }
    if word == b"turn".as_slice() {
        return turn(words);
    }
    if word == b"cut".as_slice() {
        return cut(words);
    }
    later(word, words)
}

// The same, sooner for the kinds of which reports have most lines: a word is compared with all of theirs at once.
#[inline(never)]
pub(crate) fn fields<P: Point>(word: &[u8], words: &mut Words) -> Option<Line<P>>
    ensures { ReadsFields P.DIM P.coords word.now words.old result }
{
    match word {
        b"near" => near(words),
        b"del" => del(words),
        b"at" => at(words),
        b"turn" => turn(words),
        b"seg" => seg(words),
        b"least" => least(words),
        b"cut" => cut(words),
        b"contour" => contour(words),
        b"on" => on(words),
        b"off" => off(words),
        b"patch" => patch(words),
        _ => any(word, words),
    }
}

/// Reads a line of a report from its bytes without the LF, for pictures whose points are of type `P`.
///
/// `None` exactly where no line has this spelling: an unknown first word, a word too few or too many, a blank too
/// many, a number that is not spelled in the one lawful way or is out of its range, another report number than 1, or
/// than 2 for a flat picture, another kind of picture, or no lawful name of a rule. A line of the plane that is read has 0 for its third coefficient.
/// It takes no memory.
#[inline(never)]
pub fn read_claim<P: Point>(bytes: &[u8]) -> Option<Line<P>>
    ensures { MatchOption result ((l : Terms.Line) → IsLineOf P.DIM l → spelling l ≢ bytes.now)
        (λ l. IsLineOf P.DIM (line_of P.coords l) × (spelling (line_of P.coords l) ≡ bytes.now) × HasNoThird l) }
{
    let mut words = Words::new(bytes);
    let word = words.next_word()?;
    fields(word, &mut words)
}
