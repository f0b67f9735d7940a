//! The judges of the sections that a picture has no line of: the contours of a volume, and the faces of a flat picture.
//! Those of the contours of a flat picture and of the faces of a volume have crates of their own.
ghost use Rattle.std.specs.Prelude.{◌≡◌, [], length};
ghost use Rattle.report_terms.specs.Sections.{Section};

use crate::judges::SectionJudge;
use shape_report::Line;
use shape_rules::EndRule;
use shape_space::{NoMemory, P2, P3};

/// The judge of the contours of a volume: no line of one is good.
#[derive(Drop)]
pub struct NoContours;

impl SectionJudge<P3> for NoContours {
    ghost section = { Section.Contours };

    ghost stands = { λ X n by j now lines. (length X.sides ≡ 3) × (lines ≡ []) };

    ghost room = { λ j. 0 };

    fn rank() -> u8 {
        3
    }

    fn take(&mut self, _line: &Line<P3>, _rule: &mut dyn EndRule) -> Result<bool, NoMemory> {
        Ok(false)
    }

    fn done(&self) -> bool {
        true
    }
}

/// The judge of the faces of a flat picture: no line of one is good.
#[derive(Drop)]
pub struct NoFaces;

impl SectionJudge<P2> for NoFaces {
    ghost section = { Section.Faces };

    ghost stands = { λ X n by j now lines. (length X.sides ≡ 2) × (lines ≡ []) };

    ghost room = { λ j. 0 };

    fn rank() -> u8 {
        4
    }

    fn take(&mut self, _line: &Line<P2>, _rule: &mut dyn EndRule) -> Result<bool, NoMemory> {
        Ok(false)
    }

    fn done(&self) -> bool {
        true
    }
}
