//! The marks of a further report behind its heading, gathered as its lines come, and whether these come in order.
//! What a line gives is known to `over_line`; how a text is gone through, to `report_text`.
ghost use Rattle.std.specs.Prelude.{◌≡◌, ◌≤◌, ◌<◌, ◌^◌, ◌↔◌, ◌++◌, [], false, IsTrue, IfOk};
ghost use Rattle.std.specs.Bool.{OnTrue};
ghost use Rattle.std.specs.Option.{option_to_list};
ghost use Rattle.shape_terms.specs.Points.{Point as Corner};
ghost use Rattle.draw_report.specs.Parts.{Claim, step, mark_in};
ghost use Rattle.draw_report.specs.Seen.{part_of, all_marks};
ghost use Rattle.draw_report.specs.Standing.{standing_of};

use crate::over_line::OverLine;
use crate::part::{Mark, Part};
use report_text::ReportJudge;
use shape_space::NoMemory;
use std::alloc::Global;

// A report has no more lines.
const MOST: u64 = 1 << 61;

/// The marks of a report whose heading was taken, whether its end came, and how many lines may still come.
#[derive(Drop)]
pub struct Gatherer {
    pub(crate) marks: Vec<Mark>,
    pub(crate) ended: bool,
    room: u64,
}

impl Gatherer {
    /// The lines behind the heading are to come.
    pub(crate) fn new(alloc: Global) -> Gatherer
        ensures marks { result.marks.items ≡ [] }
        ensures ended { result.ended ≡ false }
        ensures room { result.room ≤ 2 ^ 61 }
    {
        Gatherer {
            marks: Vec::new(alloc),
            ended: false,
            room: MOST,
        }
    }

    /// The marks.
    pub(crate) fn into_marks(self) -> Vec<Mark>
        ensures { result ≡ self.marks }
    {
        self.marks
    }

    // Keeps what a line gives.
    fn keep(&mut self, part: Part) -> Result<(), NoMemory>
        ensures marks { IfOk result (λ _. all_marks self.new.marks.items
            ≡ all_marks self.old.marks.items ++ option_to_list (mark_in (part_of part))) }
        ensures standing { IfOk result (λ _. self.old.ended ≡ false
            → standing_of self.new.ended ≡ step (standing_of self.old.ended) (part_of part)) }
        ensures room { self.new.room ≡ self.old.room }
    {
        match part {
            Part::Heading { .. } => {}
            Part::Gives(mark) => self.marks.push(mark)?,
            Part::Quiet => {}
            Part::End => self.ended = true,
        }
        Ok(())
    }

    // Whether a line that gives this may come next.
    fn may_come(&self, part: Part) -> bool
        ensures { (sides : Corner) → IsTrue result
            ↔ Claim sides (standing_of self.now.ended) (part_of part) }
    {
        if self.ended {
            return false;
        }
        match part {
            Part::Heading { .. } => false,
            Part::Gives(_) => true,
            Part::Quiet => true,
            Part::End => true,
        }
    }
}

impl<L: OverLine> ReportJudge<L> for Gatherer {
    ghost use Rattle.shape_terms.specs.Points.{Point};
    ghost use Rattle.draw_report.specs.Parts.{kind_by, in_order};
    ghost use Rattle.draw_report.specs.Standing.{StandsFor};
    ghost use Rattle.draw_report.specs.Ends.{is_report};

    ghost About = { Point };

    ghost good = { λ sides. (in_order (kind_by L.form L.last L.gives) sides).GoodAfter };

    ghost stands = { λ sides g lines. StandsFor (kind_by L.form L.last L.gives) sides g lines };

    ghost room = { λ g. g.room };

    fn take(&mut self, line: &L) -> Result<bool, NoMemory> {
        let part = line.part();
        if !self.may_come(part) {
            return Ok(false);
        }
        let Some(room) = self.room.checked_sub(1) else {
            return Err(NoMemory);
        };
        self.keep(part)?;
        self.room = room;
        Ok(true)
    }

    fn has_ended(&self) -> bool {
        self.ended
    }

    ghost ends = { λ sides. is_report (kind_by L.form L.last L.gives) L.last_ends L.only_last sides };
}
