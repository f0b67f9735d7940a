//! Reading the fields of a line of one kind from its words.
//! A further kind of line is one more function that reads its fields one after another; which word tells it, `read` knows.
ghost use Rattle.std.specs.Prelude.{◌≡◌, ◌∷◌, [], pos, take, drop, IfSome};
ghost use Rattle.std.specs.Int.{w64};
ghost use Rattle.text_terms.specs.Forms.{signed, letter, name, behind, ◌⨾◌};
ghost use Rattle.text_terms.specs.Fields.{point, row};
ghost use Rattle.text_terms.specs.PictureKinds.{kind_word};
ghost use Rattle.report_terms.specs.Kinds.{Kind};
ghost use Rattle.shape_rules.specs.Names.{word_of};
ghost use Rattle.report_text.specs.Reading.{ReadsForm};
ghost use Rattle.shape_report.specs.Reading.{ReadsEnd, ReadsKind};

use crate::field::{name, number, sense};
use crate::line::Line;
use report_text::field::{
    count, flat_axis, flat_coefficients, point, side, signed, solid_axis, solid_coefficients,
    weight,
};
use report_text::{Words, kind, read_why};
use shape_refute::{Bounds, Naive, Refusal, Turn};
use shape_rules::Name;
use shape_space::Point;

// Whether no word is left, as a unit where that is so.
#[inline(always)]
fn end_of(words: &Words) -> Option<()>
    ensures { ReadsEnd words.now result }
{
    words.end()
}

// Reads the kind of picture, its sides and the name of its rule.
fn heading<P: Point>(words: &mut Words) -> Option<(P, Name)>
    ensures { ReadsForm (λ p. (P.coords p.0, word_of p.1))
        (behind (kind_word P.DIM) (point P.DIM ⨾ name)) words.old words.new result }
{
    words.skip(kind::<P>())?;
    let sides = point(words)?;
    let rule = name(words)?;
    Some((sides, rule))
}

// Reads the fields of a `shape` line.
pub(crate) fn shape<P: Point>(words: &mut Words) -> Option<Line<P>>
    ensures { ReadsKind P.DIM P.coords Kind.Shape words.old result }
{
    let number = number::<P>(words)?;
    let (sides, rule) = heading::<P>(words)?;
    end_of(words)?;
    Some(Line::Shape {
        number,
        sides,
        rule,
    })
}

// Reads the fields of a `parts` line.
pub(crate) fn parts<P: Point>(words: &mut Words) -> Option<Line<P>>
    ensures { ReadsKind P.DIM P.coords Kind.Parts words.old result }
{
    let points = count(words)?;
    let object = count(words)?;
    let background = count(words)?;
    end_of(words)?;
    Some(Line::Parts {
        points,
        object,
        background,
    })
}

// Reads the fields of a `near` line.
#[inline(always)]
pub(crate) fn near<P: Point>(words: &mut Words) -> Option<Line<P>>
    ensures { ReadsKind P.DIM P.coords Kind.Near words.old result }
{
    let p = point(words)?;
    let q = point(words)?;
    let s = weight(words)?;
    end_of(words)?;
    Some(Line::Near { p, q, s })
}

// Reads the fields of a `contour` line. It is a line of flat pictures alone.
pub(crate) fn contour<P: Point>(words: &mut Words) -> Option<Line<P>>
    ensures { ReadsKind P.DIM P.coords Kind.Contour words.old result }
{
    if P::DIM != 2 {
        return None;
    }
    let p = point(words)?;
    let side = side(words)?;
    let points = count(words)?;
    let segments = count(words)?;
    end_of(words)?;
    Some(Line::Contour {
        p,
        side,
        points,
        segments,
    })
}

// Reads the fields of an `at` line. It is a line of flat pictures alone.
#[inline(always)]
pub(crate) fn at<P: Point>(words: &mut Words) -> Option<Line<P>>
    ensures { ReadsKind P.DIM P.coords Kind.At words.old result }
{
    if P::DIM != 2 {
        return None;
    }
    let p = point(words)?;
    end_of(words)?;
    Some(Line::At { p })
}

// Reads a naive line of the plane.
fn naive(words: &mut Words) -> Option<Naive>
    ensures form { ReadsForm (λ n. (n.axis, (take 2 n.a, n.mu)))
        (letter 2 ⨾ row 2 ⨾ signed w64 63) words.old words.new result }
    ensures third { IfSome result (λ n. drop 2 n.a ≡ pos 0 ∷ []) }
{
    let axis = flat_axis(words)?;
    let a = flat_coefficients(words)?;
    let mu = signed(words)?;
    Some(Naive { a, mu, axis })
}

// Reads the fields of a `seg` line. It is a line of flat pictures alone.
pub(crate) fn seg<P: Point>(words: &mut Words) -> Option<Line<P>>
    ensures { ReadsKind P.DIM P.coords Kind.Seg words.old result }
{
    if P::DIM != 2 {
        return None;
    }
    let first = count(words)?;
    let last = count(words)?;
    let line = naive(words)?;
    end_of(words)?;
    Some(Line::Seg { first, last, line })
}

// Reads the fields of a `least` line. It is a line of flat pictures alone.
pub(crate) fn least<P: Point>(words: &mut Words) -> Option<Line<P>>
    ensures { ReadsKind P.DIM P.coords Kind.Least words.old result }
{
    if P::DIM != 2 {
        return None;
    }
    let low1 = count(words)?;
    let high1 = count(words)?;
    let low2 = count(words)?;
    let high2 = count(words)?;
    let bounds = Bounds {
        low1,
        high1,
        low2,
        high2,
    };
    end_of(words)?;
    Some(Line::Least { bounds })
}

// Reads the fields of a `turn` line. It is a line of flat pictures alone.
pub(crate) fn turn<P: Point>(words: &mut Words) -> Option<Line<P>>
    ensures { ReadsKind P.DIM P.coords Kind.Turn words.old result }
{
    if P::DIM != 2 {
        return None;
    }
    let axis = flat_axis(words)?;
    let i = count(words)?;
    let j = count(words)?;
    let refusal = Refusal::Turned(Turn { i, j });
    end_of(words)?;
    Some(Line::Gap { axis, refusal })
}

// Reads the fields of a `cut` line. It is a line of flat pictures alone.
pub(crate) fn cut<P: Point>(words: &mut Words) -> Option<Line<P>>
    ensures { ReadsKind P.DIM P.coords Kind.Cut words.old result }
{
    if P::DIM != 2 {
        return None;
    }
    let axis = flat_axis(words)?;
    let why = read_why(words, 2)?;
    let refusal = Refusal::Cut(why);
    end_of(words)?;
    Some(Line::Gap { axis, refusal })
}

// Reads the fields of a `face` line. It is a line of volumes alone.
pub(crate) fn face<P: Point>(words: &mut Words) -> Option<Line<P>>
    ensures { ReadsKind P.DIM P.coords Kind.Face words.old result }
{
    if P::DIM != 3 {
        return None;
    }
    let axis = solid_axis(words)?;
    let sense = sense(words)?;
    let points = count(words)?;
    end_of(words)?;
    Some(Line::Face {
        axis,
        sense,
        points,
    })
}

// Reads the fields of a `patch` line. It is a line of volumes alone.
pub(crate) fn patch<P: Point>(words: &mut Words) -> Option<Line<P>>
    ensures { ReadsKind P.DIM P.coords Kind.Patch words.old result }
{
    if P::DIM != 3 {
        return None;
    }
    let points = count(words)?;
    let a = solid_coefficients(words)?;
    let mu = signed(words)?;
    end_of(words)?;
    Some(Line::Patch { points, a, mu })
}

// Reads the fields of an `on` line. It is a line of volumes alone.
#[inline(always)]
pub(crate) fn on<P: Point>(words: &mut Words) -> Option<Line<P>>
    ensures { ReadsKind P.DIM P.coords Kind.On words.old result }
{
    if P::DIM != 3 {
        return None;
    }
    let p = point(words)?;
    end_of(words)?;
    Some(Line::On { p })
}

// Reads the fields of an `off` line. It is a line of volumes alone.
pub(crate) fn off<P: Point>(words: &mut Words) -> Option<Line<P>>
    ensures { ReadsKind P.DIM P.coords Kind.Off words.old result }
{
    if P::DIM != 3 {
        return None;
    }
    let p = point(words)?;
    let why = read_why(words, 3)?;
    end_of(words)?;
    Some(Line::Off { p, why })
}

// Reads the fields of a `del` line.
#[inline(always)]
pub(crate) fn del<P: Point>(words: &mut Words) -> Option<Line<P>>
    ensures { ReadsKind P.DIM P.coords Kind.Del words.old result }
{
    let p = point(words)?;
    end_of(words)?;
    Some(Line::Del { p })
}

// Reads the fields of a `tip` line.
pub(crate) fn tip<P: Point>(words: &mut Words) -> Option<Line<P>>
    ensures { ReadsKind P.DIM P.coords Kind.Tip words.old result }
{
    let p = point(words)?;
    end_of(words)?;
    Some(Line::Tip { p })
}

// Reads the fields of a `kept` line.
pub(crate) fn kept<P: Point>(words: &mut Words) -> Option<Line<P>>
    ensures { ReadsKind P.DIM P.coords Kind.Kept words.old result }
{
    let points = count(words)?;
    let object = count(words)?;
    let background = count(words)?;
    end_of(words)?;
    Some(Line::Kept {
        points,
        object,
        background,
    })
}

// Reads the fields of an `end` line, which has none.
pub(crate) fn end<P: Point>(words: &Words) -> Option<Line<P>>
    ensures { ReadsKind P.DIM P.coords Kind.End words.now result }
{
    end_of(words)?;
    Some(Line::End)
}
