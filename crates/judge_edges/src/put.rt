//! The words of a line of an edge report, put one after another.
//! A further kind of line is one more case of `put_words` and a function that puts its words.
ghost use Rattle.std.specs.Prelude.{◌≡◌, ◌≤◌, ◌+◌, ◌++◌, [], length};
ghost use Rattle.text_terms.specs.Tables.{IsSplitOf};
ghost use Rattle.text_terms.specs.Weights.{why as why_form};
ghost use Rattle.edge_terms.specs.Kinds as Kinds;
ghost use Rattle.edge_terms.specs.Kinds.{sign, standard, table};
ghost use Rattle.edge_terms.specs.Lines.{Line, split};
ghost use Rattle.report_text.specs.Spelling.{behind_blanks, kind_text, split_text};
ghost use Rattle.shape_refute.specs.Weights.{refutation_of};
ghost use Rattle.shape_crack.specs.Terms.{point_of};
ghost use Rattle.judge_edges.specs.Lines.{standard_of};
ghost use Rattle.judge_edges.specs.Gaps.{gap_of};
ghost use Rattle.judge_edges.specs.LineOf.{split_of};

use crate::arc::Arc;
use crate::gap::EdgeGap;
use crate::line::EdgeLine;
use crate::standard::Standard;
use report_text::{Text, put_why};
use shape_crack::Crack;
use shape_refute::Refutation;

// Puts a sign behind a blank.
fn put_sign(z: i8, text: &mut Text)
    requires room { length text.old + 2 ≤ 1024 }
    requires range { sign.InRange z }
    ensures text { text.new ≡ text.old ++ behind_blanks (sign.words z) }
    ensures room { length text.new ≤ length text.old + 2 }
{
    if z == 1 {
        text.put(b" +")
    } else {
        text.put(b" -")
    }
}

// Puts a standard line behind a blank.
fn put_standard(line: &Standard, text: &mut Text)
    requires room { length text.old + 67 ≤ 1024 }
    requires range { standard.InRange (standard_of line.now) }
    ensures text { text.new ≡ text.old ++ behind_blanks (standard.words (standard_of line.now)) }
{
    put_sign(line.h, text);
    put_sign(line.v, text);
    text.weight(line.a.unsigned_abs());
    text.weight(line.c.unsigned_abs());
    text.signed(line.mu)
}

// Puts the words of an `edges` line.
fn put_edges(width: u32, height: u32, text: &mut Text)
    requires { text.old ≡ [] }
    ensures { text.new ≡ kind_text table Kinds.Kind.Edges (width, height) }
{
    text.put(b"edges 1");
    text.count(width);
    text.count(height)
}

// Puts the words of a `cycle` line.
fn put_cycle(start: Crack, steps: u32, arcs: u32, text: &mut Text)
    requires { text.old ≡ [] }
    ensures { text.new
        ≡ kind_text table Kinds.Kind.Cycle (point_of start.p, (start.side, (steps, arcs))) }
{
    text.put(b"cycle");
    text.point(start.p);
    text.side(start.side);
    text.count(steps);
    text.count(arcs)
}

// Puts the words of an `arc` line.
fn put_arc(arc: &Arc, text: &mut Text)
    requires empty { text.old ≡ [] }
    requires range { standard.InRange (standard_of arc.now.line) }
    ensures { text.new
        ≡ kind_text table Kinds.Kind.Arc (arc.now.first, (arc.now.last, standard_of arc.now.line)) }
{
    text.put(b"arc");
    text.count(arc.first);
    text.count(arc.last);
    put_standard(&arc.line, text)
}

// Puts the words of a `bend` line.
fn put_bend(i: u32, j: u32, text: &mut Text)
    requires { text.old ≡ [] }
    ensures { text.new ≡ kind_text table Kinds.Kind.Bend (i, j) }
{
    text.put(b"bend");
    text.count(i);
    text.count(j)
}

// Puts the words of a `fold` line.
fn put_fold(why: &Refutation, text: &mut Text)
    requires empty { text.old ≡ [] }
    requires range { (why_form 2).InRange (refutation_of why.now) }
    ensures { text.new ≡ kind_text table Kinds.Kind.Fold (refutation_of why.now) }
{
    text.put(b"fold");
    put_why(why, text)
}

// Puts the words of a gap line.
fn put_gap(gap: &EdgeGap, text: &mut Text)
    requires empty { text.old ≡ [] }
    requires range { IsSplitOf table (split (Line.Gap (gap_of gap.now))) }
    ensures { text.new ≡ split_text table (split (Line.Gap (gap_of gap.now))) }
{
    match gap {
        EdgeGap::Bend { i, j } => put_bend(*i, *j, text),
        EdgeGap::Fold(why) => put_fold(why, text),
    }
}

// Puts the words of a line.
pub(crate) fn put_words(line: &EdgeLine, text: &mut Text)
    requires empty { text.old ≡ [] }
    requires range { IsSplitOf table (split_of line.now) }
    ensures { text.new ≡ split_text table (split_of line.now) }
{
    match line {
        EdgeLine::Edges { width, height } => put_edges(*width, *height, text),
        EdgeLine::Cycle { start, steps, arcs } => put_cycle(*start, *steps, *arcs, text),
        EdgeLine::Arc(arc) => put_arc(arc, text),
        EdgeLine::Gap(gap) => put_gap(gap, text),
        EdgeLine::End => text.put(b"end"),
    }
}
