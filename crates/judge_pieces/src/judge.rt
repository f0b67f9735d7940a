//! The judge of a report of straight pieces: the sides of the picture come first, then the lines of its contours, then the end.
//! Which line of a contour is good next is known to `lister`.
ghost use Rattle.std.specs.Prelude.{◌≡◌, ◌↔◌, ◌<◌, ◌-◌, ◌^◌, [], IsTrue, IfOk};
ghost use Rattle.std.specs.Bool.{OnTrue};
ghost use Rattle.piece_terms.specs.PieceReports.{IsHeading};
ghost use Rattle.shape_crack.specs.Terms.{point_of};
ghost use Rattle.judge_pieces.specs.LineOf.{line_of};
ghost use Rattle.judge_pieces.specs.declared.phase.Phase.TheVariants.{Ended};
ghost use Rattle.judge_pieces.specs.Judged.{phase_after, IsFoundGood, IsStepped, StandsFor, room_in, room_of};

use crate::line::PieceLine;
use crate::lister::Lister;
use crate::phase::{Phase, phase_after as phase_behind};
use report_text::ReportJudge;
use shape_grid::Grid;
use shape_space::{NoMemory, P2};
use std::alloc::Global;

/// A judge of the reports of straight pieces of one flat picture. It takes no memory once it is made.
#[derive(Drop)]
pub struct PieceJudge {
    /// The sides of the picture.
    pub sides: P2,
    /// Its contours, and where their lines stand.
    pub lister: Lister,
    /// What has come of the report.
    pub phase: Phase,
}

// Whether the line gives these sides.
fn gives(sides: P2, line: &PieceLine) -> bool
    ensures { IsTrue result ↔ IsHeading (point_of sides) (line_of line.now) }
{
    match line {
        PieceLine::Pieces { sides: given } => *given == sides,
        _ => false,
    }
}

impl PieceJudge {
    /// A judge that has taken no line.
    pub fn new(alloc: Global, grid: &Grid<P2>) -> Result<PieceJudge, NoMemory>
        ensures stands { IfOk result (λ j. StandsFor grid.now j []) }
        ensures room { IfOk result (λ j. room_of j < 2 ^ 62 - 1) }
    {
        let lister = Lister::new(alloc, grid)?;
        Ok(PieceJudge {
            sides: grid.sides().lengths,
            lister,
            phase: Phase::Opening,
        })
    }

    // Whether the line is good, which is taken by the lister where it is behind the heading.
    fn is_good(&mut self, line: &PieceLine) -> bool
        ensures answer { IsTrue result ↔ IsFoundGood self.old.phase (point_of self.old.sides)
            self.old.lister (line_of line.now) }
        ensures next { OnTrue result (IsStepped self.old.phase
            self.old.lister.standing self.new.lister.standing (line_of line.now)) }
        ensures contours { self.new.lister.contours ≡ self.old.lister.contours }
        ensures sides { self.new.sides ≡ self.old.sides }
        ensures room { OnTrue result
            (room_in (phase_after (line_of line.now)) self.new.lister < room_of self.old) }
    {
        match self.phase {
            Phase::Opening => gives(self.sides, line),
            Phase::Listing => self.lister.take(line),
            Phase::Ended => false,
        }
    }

    // Whether the end has come.
    fn is_over(&self) -> bool
        ensures { IsTrue result ↔ (self.now.phase ≡ Ended) }
    {
        matches!(self.phase, Phase::Ended)
    }
}

impl ReportJudge<PieceLine> for PieceJudge {
    ghost use Rattle.shape_terms.specs.Pictures.{Picture};
    ghost use Rattle.piece_terms.specs.PieceReports.{piece_report};
    ghost use Rattle.piece_terms.proofs.LineLaws.{is_report};
    ghost use Rattle.judge_pieces.specs.Judged.{StandsFor, room_of};

    ghost About = { Picture };

    ghost good = { λ X. (piece_report X).GoodAfter };

    ghost stands = { StandsFor };

    ghost room = { room_of };

    fn take(&mut self, line: &PieceLine) -> Result<bool, NoMemory> {
        if !self.is_good(line) {
            return Ok(false);
        }
        self.phase = phase_behind(line);
        Ok(true)
    }

    fn has_ended(&self) -> bool {
        self.is_over()
    }

    ghost ends = { is_report };
}
