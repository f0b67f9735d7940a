//! The judges of nearest points, of contours and of faces, as judges of their sections.
//! Another section with a crate of its own is one more `impl`.
ghost use Rattle.std.specs.Prelude.{◌≡◌};
ghost use Rattle.report_terms.specs.Sections.{Section};

use crate::judges::SectionJudge;
use judge_field::FieldJudge;
use judge_outline::{CoverJudge, PlaneJudge};
use shape_report::Line;
use shape_rules::EndRule;
use shape_space::{NoMemory, P2, P3, Point};

impl<P: Point> SectionJudge<P> for FieldJudge<P> {
    ghost use Rattle.judge_field.specs.FieldState.{StandsFor, room_of};

    ghost section = { Section.Nearest };

    ghost stands = { λ X n by j now lines. (j.picture ≡ X) × StandsFor j lines };

    ghost room = { room_of };

    fn rank() -> u8 {
        2
    }

    fn take(&mut self, line: &Line<P>, _rule: &mut dyn EndRule) -> Result<bool, NoMemory> {
        Ok(FieldJudge::near(self, line))
    }

    fn done(&self) -> bool {
        FieldJudge::near_done(self)
    }
}

impl SectionJudge<P2> for CoverJudge {
    ghost use Rattle.judge_outline.specs.CoverState.{StandsFor, room_of};

    ghost section = { Section.Contours };

    ghost stands = { λ X n by j now lines. (j.number ≡ n) × StandsFor X j lines };

    ghost room = { room_of };

    fn rank() -> u8 {
        3
    }

    fn take(&mut self, line: &Line<P2>, _rule: &mut dyn EndRule) -> Result<bool, NoMemory> {
        Ok(CoverJudge::take(self, line))
    }

    fn done(&self) -> bool {
        CoverJudge::done(self)
    }
}

impl SectionJudge<P3> for PlaneJudge {
    ghost use Rattle.judge_outline.specs.PlaneState.{StandsFor, room_of};

    ghost section = { Section.Faces };

    ghost stands = { λ X n by j now. StandsFor X j };

    ghost room = { room_of };

    fn rank() -> u8 {
        4
    }

    fn take(&mut self, line: &Line<P3>, _rule: &mut dyn EndRule) -> Result<bool, NoMemory> {
        Ok(PlaneJudge::take(self, line))
    }

    fn done(&self) -> bool {
        PlaneJudge::done(self)
    }
}
