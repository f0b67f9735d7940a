//! The judge of a whole edge report: the sides of the picture, then the lines of its cycles, and the end.
//! What a line of a cycle says is tested in `judge`; a further kind of line is an arm of `follow`.
ghost use Rattle.std.specs.Prelude.{◌≡◌, ◌<◌, ◌^◌, ◌↔◌, ◌∷◌, [], IsTrue, IfOk};
ghost use Rattle.edge_terms.specs.EdgeReports.{HasEnded};
ghost use Rattle.edge_terms.specs.CycleLines.{nothing_taken};
ghost use Rattle.judge_edges.specs.LineOf.{line_of};
ghost use Rattle.judge_edges.specs.Taken.{StandsFor, IsFollowed, IsStep, room_of, room_at, state_at};

use crate::judge::EdgeJudge;
use crate::line::EdgeLine;
use crate::sides::{FlatSides, flat_sides};
use crate::stage::{Stage, gives_sides, stage_behind};
use report_text::ReportJudge;
use shape_grid::Grid;
use shape_space::{NoMemory, P2};
use std::alloc::Global;

impl EdgeJudge {
    // Takes a line among those of cycles: whether it is good.
    fn follow(&mut self, line: &EdgeLine) -> bool
        ensures { IsFollowed self.old self.new (line_of line.now) result }
    {
        match line {
            EdgeLine::Edges { .. } => false,
            EdgeLine::Cycle { start, steps, arcs } => self.begin(*start, *steps, *arcs),
            EdgeLine::Arc(arc) => self.take_arc(arc),
            EdgeLine::Gap(gap) => self.take_gap(gap),
            EdgeLine::End => self.done(),
        }
    }
}

// Whether the end has come.
fn has_come(stage: Stage) -> bool
    ensures { IsTrue result ↔ HasEnded (state_at stage nothing_taken) }
{
    matches!(stage, Stage::Ended)
}

// A judge of the edge report of one flat picture.
#[derive(Drop)]
pub(crate) struct WholeJudge {
    sides: FlatSides,
    stage: Stage,
    cycles: EdgeJudge,
}

impl WholeJudge {
    // A judge that has taken no line. It takes all its memory here.
    pub(crate) fn new(alloc: Global, grid: &Grid<P2>) -> Result<WholeJudge, NoMemory>
        ensures stands { IfOk result (λ j.
            StandsFor grid.now j.sides.width j.sides.height j.stage j.cycles []) }
        ensures room { IfOk result (λ j. room_at j.stage (room_of j.cycles) < 2 ^ 61) }
    {
        let cycles = EdgeJudge::new(alloc, grid)?;
        Ok(WholeJudge {
            sides: flat_sides(grid),
            stage: Stage::Opening,
            cycles,
        })
    }

    // Takes the next line: whether it is good.
    fn step(&mut self, line: &EdgeLine) -> bool
        ensures step { IsStep self.old.sides.width self.old.sides.height self.old.stage
            self.new.stage self.old.cycles self.new.cycles (line_of line.now) result }
        ensures sides { self.new.sides ≡ self.old.sides }
    {
        match self.stage {
            Stage::Opening => {
                if !gives_sides(line, self.sides.width, self.sides.height) {
                    return false;
                }
                self.stage = Stage::Open;
                true
            }
            Stage::Open => {
                if !self.cycles.follow(line) {
                    return false;
                }
                self.stage = stage_behind(line);
                true
            }
            Stage::Ended => false,
        }
    }
}

impl ReportJudge<EdgeLine> for WholeJudge {
    ghost use Rattle.shape_terms.specs.Pictures.{Picture};
    ghost use Rattle.edge_terms.specs.EdgeReports.{edge_report};
    ghost use Rattle.edge_terms.proofs.ReportLaws.{is_report};
    ghost use Rattle.judge_edges.specs.Taken.{StandsFor, room_of, room_at};

    ghost About = { Picture };

    ghost good = { λ X. (edge_report X).GoodAfter };

    ghost stands = { λ X j lines.
        StandsFor X j.sides.width j.sides.height j.stage j.cycles lines };

    ghost room = { λ j. room_at j.stage (room_of j.cycles) };

    fn take(&mut self, line: &EdgeLine) -> Result<bool, NoMemory> {
        Ok(self.step(line))
    }

    fn has_ended(&self) -> bool {
        has_come(self.stage)
    }

    ghost ends = { is_report };
}
