//! The lines of a ball report.
//! A further kind of line is a variant here and an arm of each function.
ghost use Rattle.std.specs.Prelude.{◌≡◌, []};
ghost use Rattle.text_terms.specs.Fields.{weight};
ghost use Rattle.ball_terms.specs.Lines.{Kind, table, split};
ghost use Rattle.report_text.specs.Reading.{ReadsKind};
ghost use Rattle.report_text.specs.Spelling.{kind_text};
ghost use Rattle.judge_balls.specs.LineOf.{line_of};

use report_text::field::{count, point, weight};
use report_text::{ReportLine, TableLine, Text, Words, kind, read_line, spell_line};
use shape_space::Point;
use std::marker::Model;

/// The ball of an object point: the points of the whole space that are nearer to it than the background is.
#[derive(Clone, Copy, Debug, PartialEq, Eq)]
pub struct Ball<P> {
    /// The object point.
    pub centre: P,
    /// A background point that is nearest to it.
    pub near: P,
    /// The square of their distance.
    pub s: u64,
    /// A point of the ball that is in no other ball of the list.
    pub own: P,
}

/// A line of a ball report of a picture whose points are of type `P`.
#[derive(Clone, Copy)]
pub enum BallLine<P> {
    /// The sides of the picture, and how many balls come.
    Balls { sides: P, number: u32 },
    /// The next ball, by the raster order of the centres.
    Ball { ball: Ball<P> },
    /// The last line.
    End,
}

/// What a line is seen as: a line of the definitions.
pub struct SeenLine<P: Point> {
    line: BallLine<P>,
}

impl<P: Point> Model for SeenLine<P> {
    ghost use Rattle.ball_terms.specs.Lines as Terms;
    ghost use Rattle.judge_balls.specs.LineOf.{line_of};

    ghost Value = { Terms.Line };

    ghost view = { λ s. line_of P.coords s.line };
}

// Reads the fields of a `balls` line. Reports of this kind have the number 1.
fn read_balls<P: Point>(words: &mut Words) -> Option<BallLine<P>>
    ensures { ReadsKind (table P.DIM) (λ l. split (line_of P.coords l)) Kind.Balls
        words.old words.new result }
{
    words.skip(b"1")?;
    words.skip(kind::<P>())?;
    let sides = point(words)?;
    let number = count(words)?;
    Some(BallLine::Balls { sides, number })
}

// Reads the fields of a `ball` line.
fn read_ball<P: Point>(words: &mut Words) -> Option<BallLine<P>>
    ensures { ReadsKind (table P.DIM) (λ l. split (line_of P.coords l)) Kind.Ball
        words.old words.new result }
{
    let centre = point(words)?;
    let near = point(words)?;
    let s = weight(words)?;
    let own = point(words)?;
    let ball = Ball {
        centre,
        near,
        s,
        own,
    };
    Some(BallLine::Ball { ball })
}

// Puts the words of a `balls` line.
fn put_balls<P: Point>(sides: P, number: u32, text: &mut Text)
    requires { text.old ≡ [] }
    ensures { text.new ≡ kind_text (table P.DIM) Kind.Balls (P.coords sides, number) }
{
    text.put(b"balls 1 ");
    text.put(kind::<P>());
    text.point(sides);
    text.count(number)
}

// Puts the words of a `ball` line.
fn put_ball<P: Point>(ball: Ball<P>, text: &mut Text)
    requires empty { text.old ≡ [] }
    requires weight { weight.InRange ball.s }
    ensures { text.new ≡ kind_text (table P.DIM) Kind.Ball
        (P.coords ball.centre, (P.coords ball.near, (ball.s, P.coords ball.own))) }
{
    text.put(b"ball");
    text.point(ball.centre);
    text.point(ball.near);
    text.weight(ball.s);
    text.point(ball.own)
}

impl<P: Point> TableLine for BallLine<P> {
    ghost use Rattle.ball_terms.specs.Lines as Terms;
    ghost use Rattle.ball_terms.proofs.LineLaws.{is_table};
    ghost use Rattle.judge_balls.specs.LineOf.{line_of};

    ghost Kind = { Terms.Kind };

    ghost Fields = { Terms.Fields };

    ghost table = { Terms.table P.DIM };

    ghost split = { λ l. Terms.split (line_of P.coords l) };

    fn read_fields(word: &[u8], words: &mut Words) -> Option<BallLine<P>> {
        if word == b"balls".as_slice() {
            return read_balls(words);
        }
        if word == b"ball".as_slice() {
            return read_ball(words);
        }
        if word == b"end".as_slice() {
            return Some(BallLine::End);
        }
        None
    }

    fn put_words(&self, text: &mut Text) {
        match *self {
            BallLine::Balls { sides, number } => put_balls(sides, number, text),
            BallLine::Ball { ball } => put_ball(ball, text),
            BallLine::End => text.put(b"end"),
        }
    }

    ghost is_table = { is_table P.DIM };
}

impl<P: Point> ReportLine for BallLine<P> {
    ghost use Rattle.ball_terms.specs.Lines as Terms;
    ghost use Rattle.ball_terms.proofs.LineLaws.{spelled_balls};
    ghost use Rattle.judge_balls.specs.LineOf.{line_of};

    type Seen = SeenLine<P>;

    ghost seen = { λ l. line_of P.coords l };

    ghost form = { Terms.spelled P.DIM };

    ghost last = { Terms.Line.End };

    fn end() -> BallLine<P> {
        BallLine::End
    }

    fn read(bytes: &[u8]) -> Option<BallLine<P>> {
        read_line(bytes)
    }

    fn spell(&self, text: &mut Text) {
        spell_line(self, text)
    }

    ghost laws = { spelled_balls P.DIM };
}
