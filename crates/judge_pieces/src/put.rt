//! The words of a line, put one after another behind its first word.
//! A further kind of line is one more case of `put_line` and a function that puts its words.
ghost use Rattle.std.specs.Prelude.{◌≡◌, ◌<◌, [], take};
ghost use Rattle.text_terms.specs.Tables.{IsSplitOf};
ghost use Rattle.piece_terms.specs.Lines.{Kind, table, form_of};
ghost use Rattle.shape_refute.specs.Weights.{refutation_of};
ghost use Rattle.shape_refute.specs.Evidences.{evidence_of};
ghost use Rattle.shape_crack.specs.Terms.{point_of};
ghost use Rattle.judge_pieces.specs.LineOf.{split_of, gap_of};
ghost use Rattle.report_text.specs.Spelling.{kind_text, split_text};

use crate::line::PieceLine;
use report_text::{Text, put_why};
use shape_crack::Crack;
use shape_refute::{Naive, Refusal, Refutation, Turn};
use shape_space::P2;

// Puts the words of a `pieces` line.
fn put_pieces(sides: P2, text: &mut Text)
    requires { text.old ≡ [] }
    ensures { text.new ≡ kind_text table Kind.Pieces (point_of sides) }
{
    text.put(b"pieces 1");
    text.point(sides)
}

// Puts the words of a `chain` line.
fn put_chain(start: Crack, points: u32, pieces: u32, text: &mut Text)
    requires { text.old ≡ [] }
    ensures { text.new
        ≡ kind_text table Kind.Chain (point_of start.p, (start.side, (points, pieces))) }
{
    text.put(b"chain");
    text.point(start.p);
    text.side(start.side);
    text.count(points);
    text.count(pieces)
}

// Puts the words of a `piece` line.
fn put_piece(first: u32, last: u32, line: &Naive, text: &mut Text)
    requires empty { text.old ≡ [] }
    requires axis { line.now.axis < 2 }
    ensures { text.new ≡ kind_text table Kind.Piece
        (first, (last, (line.now.axis, (take 2 line.now.a, line.now.mu)))) }
{
    text.put(b"piece");
    text.count(first);
    text.count(last);
    text.axis(line.axis);
    text.flat_coefficients(&line.a);
    text.signed(line.mu)
}

// Puts the words of a `turn` line.
fn put_turn(axis: u8, turn: Turn, text: &mut Text)
    requires empty { text.old ≡ [] }
    requires axis { axis < 2 }
    ensures { text.new ≡ kind_text table Kind.Turn (axis, (turn.i, turn.j)) }
{
    text.put(b"turn");
    text.axis(axis);
    text.count(turn.i);
    text.count(turn.j)
}

// Puts the words of a `cut` line.
fn put_cut(axis: u8, why: &Refutation, text: &mut Text)
    requires empty { text.old ≡ [] }
    requires range { (form_of Kind.Cut).InRange (axis, refutation_of why.now) }
    ensures { text.new ≡ kind_text table Kind.Cut (axis, refutation_of why.now) }
{
    text.put(b"cut");
    text.axis(axis);
    put_why(why, text)
}

// Puts the words of a gap line.
fn put_gap(axis: u8, why: &Refusal, text: &mut Text)
    requires empty { text.old ≡ [] }
    requires range { IsSplitOf table (gap_of axis (evidence_of why.now)) }
    ensures { text.new ≡ split_text table (gap_of axis (evidence_of why.now)) }
{
    match why {
        Refusal::Turned(turn) => put_turn(axis, *turn, text),
        Refusal::Cut(why) => put_cut(axis, why, text),
    }
}

/// Puts the words of a line.
pub(crate) fn put_line(line: &PieceLine, text: &mut Text)
    requires empty { text.old ≡ [] }
    requires range { IsSplitOf table (split_of line.now) }
    ensures { text.new ≡ split_text table (split_of line.now) }
{
    match line {
        PieceLine::Pieces { sides } => put_pieces(*sides, text),
        PieceLine::Chain {
            start,
            points,
            pieces,
        } => put_chain(*start, *points, *pieces, text),
        PieceLine::Piece {
            first,
            last,
            line: naive,
        } => put_piece(*first, *last, naive, text),
        PieceLine::Gap { axis, why } => put_gap(*axis, why, text),
        PieceLine::End => text.put(b"end"),
    }
}
