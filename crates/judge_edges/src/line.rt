//! The lines of an edge report, as those of a kind of report.
//! A further kind of line is a variant and an arm here, a constructor of the definitions' line, and a clause of `line_of`.
use crate::arc::Arc;
use crate::gap::EdgeGap;
use crate::put::put_words;
use crate::read::read_fields;
use report_text::{ReportLine, TableLine, Text, Words, read_line, spell_line};
use shape_crack::Crack;
use std::marker::Model;

/// A line of an edge report.
#[derive(Clone, Copy)]
pub enum EdgeLine {
    /// The sides of the picture.
    Edges { width: u32, height: u32 },
    /// The next cycle of cracks: its least crack, the number of its cracks, and the number of its arcs.
    Cycle { start: Crack, steps: u32, arcs: u32 },
    /// The next arc of the cycle's corner path, with a standard line that holds it.
    Arc(Arc),
    /// Why the run of the next gap is not straight.
    Gap(EdgeGap),
    /// The last line.
    End,
}

/// What a line is seen as: a line of the definitions.
pub struct SeenEdgeLine {
    line: EdgeLine,
}

impl Model for SeenEdgeLine {
    ghost use Rattle.edge_terms.specs.Lines as Terms;
    ghost use Rattle.judge_edges.specs.LineOf.{line_of};

    ghost Value = { Terms.Line };

    ghost view = { λ s. line_of s.line };
}

impl TableLine for EdgeLine {
    ghost use Rattle.edge_terms.specs.Kinds as Kinds;
    ghost use Rattle.edge_terms.specs.Lines.{split};
    ghost use Rattle.edge_terms.proofs.LineLaws as Laws;
    ghost use Rattle.judge_edges.specs.LineOf.{line_of};

    ghost Kind = { Kinds.Kind };

    ghost Fields = { Kinds.Fields };

    ghost table = { Kinds.table };

    ghost split = { λ l. split (line_of l) };

    fn read_fields(word: &[u8], words: &mut Words) -> Option<EdgeLine> {
        read_fields(word, words)
    }

    fn put_words(&self, text: &mut Text) {
        put_words(self, text)
    }

    ghost is_table = { Laws.is_table };
}

impl ReportLine for EdgeLine {
    ghost use Rattle.edge_terms.specs.Lines as Terms;
    ghost use Rattle.edge_terms.proofs.LineLaws.{spelled_lines};
    ghost use Rattle.judge_edges.specs.LineOf.{line_of};

    type Seen = SeenEdgeLine;

    ghost seen = { line_of };

    ghost form = { Terms.spelled };

    ghost last = { Terms.Line.End };

    fn end() -> EdgeLine {
        EdgeLine::End
    }

    fn read(bytes: &[u8]) -> Option<EdgeLine> {
        read_line(bytes)
    }

    fn spell(&self, text: &mut Text) {
        spell_line(self, text)
    }

    ghost laws = { spelled_lines };
}
