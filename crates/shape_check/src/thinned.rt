//! The judge of the lines of the thinning: its events, and the counts of the points left.
//! How the events are followed stands in `events`.
ghost use Rattle.std.specs.Prelude.{◌≡◌, ◌↔◌, ◌+◌, ◌<◌, true, false, IsTrue, ℕ, List, [], ◌∷◌, ◌++◌};
ghost use Rattle.shape_terms.specs.Pictures.{Picture};
ghost use Rattle.shape_terms.specs.Thinning.{Rule, Event};
ghost use Rattle.report_terms.specs.Lines as Terms;
ghost use Rattle.report_terms.specs.Sections.{Section};
ghost use Rattle.report_terms.specs.ThinningLines.{IsKeptLine};
ghost use Rattle.shape_check.specs.Followed.{Thins, HasFollowed};

use crate::counts::PictureCounts;
use crate::events::ThinJudge;
use crate::judges::SectionJudge;
use shape_report::Line;
use shape_rules::EndRule;
use shape_space::NoMemory;
use shape_topo::SimpleMask;

/// The judge of the `del`, `tip` and `kept` lines.
#[derive(Drop)]
pub struct ThinnedJudge<P: SimpleMask> {
    // It follows the events.
    pub events: ThinJudge<P>,
    // Whether the rule has begun.
    pub begun: bool,
    // The components of the object and of the background, which no event changes.
    pub object: u32,
    pub background: u32,
    // Whether the `kept` line was taken.
    pub kept: bool,
}

impl<P: SimpleMask> ThinnedJudge<P> {
    ghost use Rattle.shape_check.specs.EventStanding.{StandsFor};

    // Lets the rule begin anew, before the first line.
    fn start(&mut self, rule: &mut dyn EndRule)
        ensures begun { self.new.begun ≡ true }
        ensures events { self.new.events ≡ self.old.events }
        ensures object { self.new.object ≡ self.old.object }
        ensures background { self.new.background ≡ self.old.background }
        ensures kept { self.new.kept ≡ self.old.kept }
        ensures stands { let by = means rule.old in
            (X : Picture) (events : List Event) → HasFollowed self.old.begun
            (λ events now. StandsFor by X events now self.old.events) by.opening (state rule.old)
            events → StandsFor by X events (state rule.new) self.new.events }
        ensures same_rule { means rule.new ≡ means rule.old }
    {
        if !self.begun {
            rule.reset();
            self.begun = true;
        }
    }

    // Whether the `kept` line gives the counts of the points left, of which none is unmarked and simple.
    fn are_left(&self, points: u32, object: u32, background: u32) -> bool
        ensures { (X : Picture) (by : Rule) (now : List ℕ) (lines : List Terms.Line)
            → self.now.begun ≡ true → self.now.kept ≡ false
            → Thins X by (λ events now. StandsFor by X events now self.now.events) self.now.begun
            self.now.kept self.now.object self.now.background now lines
            → (IsTrue result ↔ IsKeptLine by X lines points object background) }
    {
        if !self.events.finished() {
            return false;
        }
        let left = PictureCounts {
            points: self.events.left(),
            object: self.object,
            background: self.background,
        };
        left.are(points, object, background)
    }
}

impl<P: SimpleMask> SectionJudge<P> for ThinnedJudge<P> {
    ghost use Rattle.std.specs.Prelude.{if◌then◌else◌};
    ghost use Rattle.shape_check.specs.EventStanding.{StandsFor, room_of};

    ghost section = { Section.Thinned };

    ghost stands = { λ X n by j now lines. Thins X by (λ events now. StandsFor by X events now j.events)
        j.begun j.kept j.object j.background now lines };

    ghost room = { λ j. room_of j.events + (if j.kept then 0 else 1) };

    fn rank() -> u8 {
        5
    }

    fn take(&mut self, line: &Line<P>, rule: &mut dyn EndRule) -> Result<bool, NoMemory> {
        if self.kept {
            return Ok(false);
        }
        self.start(rule);
        match *line {
            Line::Del { p } => self.events.event(p, false, rule),
            Line::Tip { p } => self.events.event(p, true, rule),
            Line::Kept {
                points,
                object,
                background,
            } => {
                let good = self.are_left(points, object, background);
                self.kept = true;
                Ok(good)
            }
            _ => Ok(false),
        }
    }

    fn done(&self) -> bool {
        self.kept
    }
}
