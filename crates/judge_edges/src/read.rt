//! Reading the fields of a line of an edge report, behind its first word.
//! A further kind of line is one more case of `read_fields` and a function that reads its fields one after another.
ghost use Rattle.std.specs.Prelude.{◌≤ℤ◌, pos, nat_abs, IfSome};
ghost use Rattle.text_terms.specs.Fields.{weight};
ghost use Rattle.edge_terms.specs.Kinds as Kinds;
ghost use Rattle.edge_terms.specs.Kinds.{sign, standard, table};
ghost use Rattle.report_text.specs.Reading.{ReadsForm, ReadsFields};
ghost use Rattle.judge_edges.specs.Lines.{standard_of, IsNatural};
ghost use Rattle.judge_edges.specs.LineOf.{split_of, ReadsEdgeKind};

use crate::arc::Arc;
use crate::gap::EdgeGap;
use crate::line::EdgeLine;
use crate::standard::Standard;
use report_text::field::{count, point, side, signed, weight};
use report_text::{Words, read_why};
use shape_crack::Crack;

// Reads a sign.
fn sign(words: &mut Words) -> Option<i8>
    ensures { ReadsForm (λ z. z) sign words.old words.new result }
{
    match words.next_word()? {
        b"+" => Some(1),
        b"-" => Some(-1),
        _ => None,
    }
}

// Reads a coefficient.
fn coefficient(words: &mut Words) -> Option<i64>
    ensures form { ReadsForm (λ a. nat_abs a) weight words.old words.new result }
    ensures natural { IfSome result (λ a. pos 0 ≤ℤ a) }
{
    Some(weight(words)? as i64)
}

// Reads a standard line.
fn standard(words: &mut Words) -> Option<Standard>
    ensures form { ReadsForm standard_of standard words.old words.new result }
    ensures natural { IfSome result IsNatural }
{
    let h = sign(words)?;
    let v = sign(words)?;
    let a = coefficient(words)?;
    let c = coefficient(words)?;
    let mu = signed(words)?;
    Some(Standard { h, v, a, c, mu })
}

// Reads the fields of an `edges` line. Reports of this kind have the number 1.
fn edges(words: &mut Words) -> Option<EdgeLine>
    ensures { ReadsEdgeKind Kinds.Kind.Edges words.old words.new result }
{
    words.skip(b"1")?;
    let width = count(words)?;
    let height = count(words)?;
    Some(EdgeLine::Edges { width, height })
}

// Reads the fields of a `cycle` line.
fn cycle(words: &mut Words) -> Option<EdgeLine>
    ensures { ReadsEdgeKind Kinds.Kind.Cycle words.old words.new result }
{
    let p = point(words)?;
    let side = side(words)?;
    let steps = count(words)?;
    let arcs = count(words)?;
    Some(EdgeLine::Cycle {
        start: Crack { p, side },
        steps,
        arcs,
    })
}

// Reads the fields of an `arc` line.
fn arc(words: &mut Words) -> Option<EdgeLine>
    ensures { ReadsEdgeKind Kinds.Kind.Arc words.old words.new result }
{
    let first = count(words)?;
    let last = count(words)?;
    let line = standard(words)?;
    Some(EdgeLine::Arc(Arc { first, last, line }))
}

// Reads the fields of a `bend` line.
fn bend(words: &mut Words) -> Option<EdgeLine>
    ensures { ReadsEdgeKind Kinds.Kind.Bend words.old words.new result }
{
    let i = count(words)?;
    let j = count(words)?;
    Some(EdgeLine::Gap(EdgeGap::Bend { i, j }))
}

// Reads the fields of a `fold` line.
fn fold(words: &mut Words) -> Option<EdgeLine>
    ensures { ReadsEdgeKind Kinds.Kind.Fold words.old words.new result }
{
    let why = read_why(words, 2)?;
    Some(EdgeLine::Gap(EdgeGap::Fold(why)))
}

// Reads the fields of a line with this first word.
pub(crate) fn read_fields(word: &[u8], words: &mut Words) -> Option<EdgeLine>
    ensures { ReadsFields table split_of word.now words.old words.new result }
{
    if word == b"edges".as_slice() {
        return edges(words);
    }
    if word == b"cycle".as_slice() {
        return cycle(words);
    }
    if word == b"arc".as_slice() {
        return arc(words);
    }
    if word == b"bend".as_slice() {
        return bend(words);
    }
    if word == b"fold".as_slice() {
        return fold(words);
    }
    if word == b"end".as_slice() {
        return Some(EdgeLine::End);
    }
    None
}
