//! The spelling of a line: its words, each behind a blank, put one after another.
//! A further kind of line is one more case of `put_line` and a function that puts its words.
ghost use Rattle.std.specs.Prelude.{◌≡◌, ◌≤◌, ◌<◌, [], length, take};
ghost use Rattle.text_terms.specs.Weights.{why as why_form};
ghost use Rattle.report_terms.specs.Kinds.{Kind, weight, form_of};
ghost use Rattle.report_terms.specs.Forms.{IsNumber};
ghost use Rattle.report_terms.specs.Lines as Terms;
ghost use Rattle.report_terms.specs.Lines.{split, IsLineOf, spelling};
ghost use Rattle.shape_rules.specs.Names.{word_of};
ghost use Rattle.shape_refute.specs.Senses.{sense_of};
ghost use Rattle.shape_refute.specs.Weights.{refutation_of};
ghost use Rattle.shape_refute.specs.Evidences.{evidence_of};
ghost use Rattle.shape_report.specs.LineOf.{line_of};
ghost use Rattle.shape_report.specs.Spelling.{kind_text, split_text};

use crate::field::{put_number, put_sense};
use crate::line::Line;
use report_text::{Text, kind, put_why};
use shape_refute::{Bounds, Naive, Refusal, Refutation, Sense};
use shape_rules::Name;
use shape_space::Point;

// Puts the words of a `shape` line.
fn put_shape<P: Point>(number: u8, sides: P, rule: Name, text: &mut Text)
    requires empty { text.old ≡ [] }
    requires number { IsNumber P.DIM number }
    ensures { text.new ≡ kind_text P.DIM Kind.Shape (number, (P.coords sides, word_of rule)) }
{
    text.put(b"shape");
    put_number::<P>(number, text);
    text.put(b" ");
    text.put(kind::<P>());
    text.point(sides);
    text.put(b" ");
    text.put(rule.word())
}

// Puts the words of a `parts` line.
fn put_parts(points: u32, object: u32, background: u32, text: &mut Text)
    requires { text.old ≡ [] }
    ensures { text.new ≡ kind_text 2 Kind.Parts (points, (object, background)) }
{
    text.put(b"parts");
    text.count(points);
    text.count(object);
    text.count(background)
}

// Puts the words of a `near` line.
#[inline(always)]
fn put_near<P: Point>(p: P, q: P, s: u64, text: &mut Text)
    requires empty { text.old ≡ [] }
    requires weight { weight.InRange s }
    ensures { text.new ≡ kind_text P.DIM Kind.Near (P.coords p, (P.coords q, s)) }
{
    text.put(b"near");
    text.point(p);
    text.point(q);
    text.weight(s)
}

// Puts the words of a `contour` line.
fn put_contour<P: Point>(p: P, side: u8, points: u32, segments: u32, text: &mut Text)
    requires { text.old ≡ [] }
    ensures { text.new ≡ kind_text P.DIM Kind.Contour (P.coords p, (side, (points, segments))) }
{
    text.put(b"contour");
    text.point(p);
    text.side(side);
    text.count(points);
    text.count(segments)
}

// Puts the words of an `at` line.
#[inline(always)]
fn put_at<P: Point>(p: P, text: &mut Text)
    requires { text.old ≡ [] }
    ensures { text.new ≡ kind_text P.DIM Kind.At (P.coords p) }
{
    text.put(b"at");
    text.point(p)
}

// Puts the words of a `seg` line.
fn put_seg(first: u32, last: u32, line: &Naive, text: &mut Text)
    requires empty { text.old ≡ [] }
    requires axis { line.now.axis < 2 }
    ensures { text.new ≡ kind_text 2 Kind.Seg
        (first, (last, (line.now.axis, (take 2 line.now.a, line.now.mu)))) }
{
    text.put(b"seg");
    text.count(first);
    text.count(last);
    text.axis(line.axis);
    text.flat_coefficients(&line.a);
    text.signed(line.mu)
}

// Puts the words of a `least` line.
fn put_least(bounds: &Bounds, text: &mut Text)
    requires { text.old ≡ [] }
    ensures { text.new ≡ kind_text 2 Kind.Least
        (bounds.now.low1, (bounds.now.high1, (bounds.now.low2, bounds.now.high2))) }
{
    text.put(b"least");
    text.count(bounds.low1);
    text.count(bounds.high1);
    text.count(bounds.low2);
    text.count(bounds.high2)
}

// Puts the words of a `turn` line.
fn put_turn(axis: u8, i: u32, j: u32, text: &mut Text)
    requires empty { text.old ≡ [] }
    requires axis { axis < 2 }
    ensures { text.new ≡ kind_text 2 Kind.Turn (axis, (i, j)) }
{
    text.put(b"turn");
    text.axis(axis);
    text.count(i);
    text.count(j)
}

// Puts the words of a `cut` line.
fn put_cut(axis: u8, why: &Refutation, text: &mut Text)
    requires empty { text.old ≡ [] }
    requires range { (form_of 2 Kind.Cut).InRange (axis, refutation_of why.now) }
    ensures { text.new ≡ kind_text 2 Kind.Cut (axis, refutation_of why.now) }
{
    text.put(b"cut");
    text.axis(axis);
    put_why(why, text)
}

// Puts the words of the line of a gap.
fn put_gap(axis: u8, refusal: &Refusal, text: &mut Text)
    requires empty { text.old ≡ [] }
    requires range { IsLineOf 2 (Terms.Line.Gap axis (evidence_of refusal.now)) }
    ensures { text.new ≡ split_text 2 (split (Terms.Line.Gap axis (evidence_of refusal.now))) }
{
    match refusal {
        Refusal::Turned(turn) => put_turn(axis, turn.i, turn.j, text),
        Refusal::Cut(why) => put_cut(axis, why, text),
    }
}

// Puts the words of a `face` line.
fn put_face(axis: u8, sense: Sense, points: u32, text: &mut Text)
    requires empty { text.old ≡ [] }
    requires axis { axis < 3 }
    ensures { text.new ≡ kind_text 3 Kind.Face (axis, (sense_of sense, points)) }
{
    text.put(b"face");
    text.axis(axis);
    put_sense(sense, text);
    text.count(points)
}

// Puts the words of a `patch` line.
fn put_patch(points: u32, a: &[i64; 3], mu: i64, text: &mut Text)
    requires { text.old ≡ [] }
    ensures { text.new ≡ kind_text 3 Kind.Patch (points, (take 3 a.now, mu)) }
{
    text.put(b"patch");
    text.count(points);
    text.solid_coefficients(a);
    text.signed(mu)
}

// Puts the words of an `on` line.
fn put_on<P: Point>(p: P, text: &mut Text)
    requires { text.old ≡ [] }
    ensures { text.new ≡ kind_text P.DIM Kind.On (P.coords p) }
{
    text.put(b"on");
    text.point(p)
}

// Puts the words of an `off` line.
fn put_off<P: Point>(p: P, why: &Refutation, text: &mut Text)
    requires empty { text.old ≡ [] }
    requires range { (why_form 3).InRange (refutation_of why.now) }
    ensures { text.new ≡ kind_text P.DIM Kind.Off (P.coords p, refutation_of why.now) }
{
    text.put(b"off");
    text.point(p);
    put_why(why, text)
}

// Puts the words of a `del` line.
#[inline(always)]
fn put_del<P: Point>(p: P, text: &mut Text)
    requires { text.old ≡ [] }
    ensures { text.new ≡ kind_text P.DIM Kind.Del (P.coords p) }
{
    text.put(b"del");
    text.point(p)
}

// Puts the words of a `tip` line.
fn put_tip<P: Point>(p: P, text: &mut Text)
    requires { text.old ≡ [] }
    ensures { text.new ≡ kind_text P.DIM Kind.Tip (P.coords p) }
{
    text.put(b"tip");
    text.point(p)
}

// Puts the words of a `kept` line.
fn put_kept(points: u32, object: u32, background: u32, text: &mut Text)
    requires { text.old ≡ [] }
    ensures { text.new ≡ kind_text 2 Kind.Kept (points, (object, background)) }
{
    text.put(b"kept");
    text.count(points);
    text.count(object);
    text.count(background)
}

// Puts the words of a line.
#[inline(always)]
fn put_line<P: Point>(line: &Line<P>, text: &mut Text)
    requires empty { text.old ≡ [] }
    requires range { IsLineOf P.DIM (line_of P.coords line.now) }
    ensures { text.new ≡ split_text P.DIM (split (line_of P.coords line.now)) }
{
    match line {
        Line::Shape {
            number,
            sides,
            rule,
        } => put_shape(*number, *sides, *rule, text),
        Line::Parts {
            points,
            object,
            background,
        } => put_parts(*points, *object, *background, text),
        Line::Near { p, q, s } => put_near(*p, *q, *s, text),
        Line::Contour {
            p,
            side,
            points,
            segments,
        } => put_contour(*p, *side, *points, *segments, text),
        Line::At { p } => put_at(*p, text),
        Line::Seg {
            first,
            last,
            line: naive,
        } => put_seg(*first, *last, naive, text),
        Line::Least { bounds } => put_least(bounds, text),
        Line::Gap { axis, refusal } => put_gap(*axis, refusal, text),
        Line::Face {
            axis,
            sense,
            points,
        } => put_face(*axis, *sense, *points, text),
        Line::Patch { points, a, mu } => put_patch(*points, a, *mu, text),
        Line::On { p } => put_on(*p, text),
        Line::Off { p, why } => put_off(*p, why, text),
        Line::Del { p } => put_del(*p, text),
        Line::Tip { p } => put_tip(*p, text),
        Line::Kept {
            points,
            object,
            background,
        } => put_kept(*points, *object, *background, text),
        Line::End => text.put(b"end"),
    }
}

// Spells a line, without its LF, in the place of a text.
#[inline(always)]
pub(crate) fn spell<P: Point>(line: &Line<P>, text: &mut Text)
    requires { IsLineOf P.DIM (line_of P.coords line.now) }
    ensures { text.new ≡ spelling (line_of P.coords line.now) }
{
    text.clear();
    put_line(line, text)
}
