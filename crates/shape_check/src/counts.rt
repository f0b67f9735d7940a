//! The judge of the line that gives the counts of the picture.
//! A further count is decided here.
ghost use Rattle.std.specs.Prelude.{◌≡◌, ◌↔◌, IsTrue};

use crate::judges::SectionJudge;
use shape_report::Line;
use shape_rules::EndRule;
use shape_space::{NoMemory, Point};

/// How many object points a picture has, and how many components its object and its background.
#[derive(Clone, Copy)]
pub struct PictureCounts {
    pub points: u32,
    pub object: u32,
    pub background: u32,
}

impl PictureCounts {
    /// Whether these are the counts.
    pub fn are(&self, points: u32, object: u32, background: u32) -> bool
        ensures { IsTrue result ↔ ((points ≡ self.now.points) × (object ≡ self.now.object)
            × (background ≡ self.now.background)) }
    {
        points == self.points && object == self.object && background == self.background
    }
}

/// The judge of the `parts` line.
#[derive(Drop)]
pub struct CountsJudge {
    // The counts of the picture.
    pub counts: PictureCounts,
    // Whether the line was taken.
    pub taken: bool,
}

impl<P: Point> SectionJudge<P> for CountsJudge {
    ghost use Rattle.std.specs.Prelude.{if◌then◌else◌};
    ghost use Rattle.shape_terms.specs.Parts.{Counts};
    ghost use Rattle.report_terms.specs.Sections.{Section};
    ghost use Rattle.shape_check.specs.Rows.{HasTaken};

    ghost section = { Section.Counted };

    ghost stands = { λ X n by j now lines. Counts X j.counts.points j.counts.object j.counts.background
        × HasTaken j.taken lines };

    ghost room = { λ j. if j.taken then 0 else 1 };

    fn rank() -> u8 {
        1
    }

    fn take(&mut self, line: &Line<P>, _rule: &mut dyn EndRule) -> Result<bool, NoMemory> {
        if self.taken {
            return Ok(false);
        }
        self.taken = true;
        match *line {
            Line::Parts {
                points,
                object,
                background,
            } => Ok(self.counts.are(points, object, background)),
            _ => Ok(false),
        }
    }

    fn done(&self) -> bool {
        self.taken
    }
}
