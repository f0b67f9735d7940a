//! The lines of a report of straight pieces: one variant for each kind, but one for both kinds of gap lines.
//! A further kind of line is a variant here, an arm of each function of `read` and `put`, and a constructor of the definitions' line.
use crate::put::put_line;
use crate::read::read_fields;
use report_text::{ReportLine, TableLine, Text, Words, read_line, spell_line};
use shape_crack::Crack;
use shape_refute::{Naive, Refusal};
use shape_space::P2;
use std::marker::Model;

/// A line of a report of the fewest straight pieces of each contour of a flat picture.
#[derive(Clone, Copy)]
pub enum PieceLine {
    /// The sides of the picture.
    Pieces {
        sides: P2,
    },
    /// The next contour: its first crack, the number of its points, and the number of its pieces.
    Chain {
        start: Crack,
        points: u32,
        pieces: u32,
    },
    /// The next piece of the contour: the places of its first and last points, from 0 on, and a naive line that holds its points. The
    /// line's third coefficient does not count, and is 0 in a line that was read.
    Piece {
        first: u32,
        last: u32,
        line: Naive,
    },
    /// Why the run of the piece with the next point is not straight for an axis (0 for x, 1 for y).
    Gap {
        axis: u8,
        why: Refusal,
    },
    /// The last line.
    End,
}

/// What a line is seen as: a line of the definitions.
pub struct SeenLine {
    line: PieceLine,
}

impl Model for SeenLine {
    ghost use Rattle.piece_terms.specs.Lines.{Line};
    ghost use Rattle.judge_pieces.specs.LineOf.{line_of};

    ghost Value = { Line };

    ghost view = { λ s. line_of s.line };
}

impl TableLine for PieceLine {
    ghost use Rattle.piece_terms.specs.Lines as Terms;
    ghost use Rattle.piece_terms.proofs.LineLaws as Laws;
    ghost use Rattle.judge_pieces.specs.LineOf.{split_of};

    ghost Kind = { Terms.Kind };

    ghost Fields = { Terms.Fields };

    ghost table = { Terms.table };

    ghost split = { split_of };

    fn read_fields(word: &[u8], words: &mut Words) -> Option<PieceLine> {
        read_fields(word, words)
    }

    fn put_words(&self, text: &mut Text) {
        put_line(self, text)
    }

    ghost is_table = { Laws.is_table };
}

impl ReportLine for PieceLine {
    ghost use Rattle.piece_terms.specs.Lines as Terms;
    ghost use Rattle.piece_terms.proofs.LineLaws.{are_spelled};
    ghost use Rattle.judge_pieces.specs.LineOf.{line_of};

    type Seen = SeenLine;

    ghost seen = { line_of };

    ghost form = { Terms.spelled };

    ghost last = { Terms.Line.End };

    fn end() -> PieceLine {
        PieceLine::End
    }

    fn read(bytes: &[u8]) -> Option<PieceLine> {
        read_line(bytes)
    }

    fn spell(&self, text: &mut Text) {
        spell_line(self, text)
    }

    ghost laws = { are_spelled };
}
