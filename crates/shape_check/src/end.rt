//! The judge of the line `end`, the last of a row.
//! No line is good behind it.
ghost use Rattle.std.specs.Prelude.{◌≡◌, ◌↔◌, [], ◌∷◌, ◌++◌, List, IsTrue, IfOk};

use crate::judges::Judges;
use shape_report::Line;
use shape_rules::EndRule;
use shape_space::{NoMemory, Point};

/// The judge of the line `end`.
#[derive(Drop)]
pub struct EndJudge {
    // Whether the line was taken.
    pub taken: bool,
}

impl<P: Point> Judges<P> for EndJudge {
    ghost use Rattle.std.specs.Prelude.{false, if◌then◌else◌};
    ghost use Rattle.report_terms.specs.Sections.{Section};
    ghost use Rattle.shape_check.specs.Rows.{EndFollows};
    ghost use Rattle.shape_check.specs.Entered.{end_entered};

    ghost section = { Section.End };

    ghost waits = { λ X n j. j.taken ≡ false };

    ghost follows = { λ X n by j now lines. EndFollows X j.taken lines };

    ghost room = { λ j. if j.taken then 0 else 1 };

    fn take(&mut self, line: &Line<P>, _rule: &mut dyn EndRule) -> Result<bool, NoMemory> {
        if self.taken {
            return Ok(false);
        }
        self.taken = true;
        Ok(matches!(line, Line::End))
    }

    fn has_ended(&self) -> bool {
        self.taken
    }

    ghost entered = { λ X n by j now lines w h e. end_entered X j.taken lines w h e };
}
