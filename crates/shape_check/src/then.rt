//! A judge of one section, and the row of those behind it.
//! How sections follow each other is decided here alone.
ghost use Rattle.std.specs.Prelude.{◌≡◌, ◌↔◌, ◌+◌, false, [], ◌∷◌, ◌++◌, ℕ, List, IsTrue, IfOk};
ghost use Rattle.shape_terms.specs.Pictures.{Picture};
ghost use Rattle.shape_terms.specs.Thinning.{Rule};
ghost use Rattle.report_terms.specs.Lines as Terms;
ghost use Rattle.shape_check.specs.Rows.{IsNext};

use crate::judges::{Judges, SectionJudge};
use shape_report::Line;
use shape_rules::EndRule;
use shape_space::{NoMemory, Point};

/// The judge of a section, and of those behind it.
///
/// It asks nothing of its parts, so that the type of a long row is no longer than the list of them.
#[derive(Drop)]
pub struct Then<J, R> {
    first: J,
    rest: R,
    // Whether a line of a later section was taken.
    is_past: bool,
}

/// A row that waits where the judge has taken no line and the rest waits, which begins with the next section.
pub fn before<P: Point, J: SectionJudge<P>, R: Judges<P>>(first: J, rest: R) -> Then<J, R>
    requires { IsNext J.section R.section }
    ensures waits { (X : Picture) (n : ℕ)
        → ((by : Rule) (now : List ℕ) → J.stands X n by first now []) → R.waits X n rest
        → (result.is_past ≡ false) × IsNext J.section R.section
        × ((by : Rule) (now : List ℕ) → J.stands X n by result.first now [])
        × R.waits X n result.rest }
    ensures room { J.room result.first + R.room result.rest ≡ J.room first + R.room rest }
{
    Then {
        first,
        rest,
        is_past: false,
    }
}

impl<P: Point, J: SectionJudge<P>, R: Judges<P>> Judges<P> for Then<J, R> {
    ghost use Rattle.std.specs.Prelude.{◌+◌};
    ghost use Rattle.shape_check.specs.Rows.{RowFollows};
    ghost use Rattle.shape_check.specs.Entered.{row_entered};

    ghost section = { J.section };

    ghost waits = { λ X n t. (t.is_past ≡ false) × IsNext J.section R.section
        × ((by : Rule) (now : List ℕ) → J.stands X n by t.first now []) × R.waits X n t.rest };

    ghost follows = { λ X n by t now lines. IsNext J.section R.section
        × RowFollows X J.section R.section t.is_past (J.stands X.picture n by t.first now)
        (R.waits X.picture n t.rest) (R.follows X n by t.rest now) lines };

    ghost room = { λ t. J.room t.first + R.room t.rest };

    #[inline(always)]
    fn take(&mut self, line: &Line<P>, rule: &mut dyn EndRule) -> Result<bool, NoMemory> {
        if self.is_past {
            return self.rest.take(line, rule);
        }
        if line.rank() == J::rank() {
            return self.first.take(line, rule);
        }
        if !self.first.done() {
            return Ok(false);
        }
        self.is_past = true;
        self.rest.take(line, rule)
    }

    fn has_ended(&self) -> bool {
        self.is_past && self.rest.has_ended()
    }

    ghost entered = { λ X n by t now lines w h e. (
      w.1,
      row_entered X J.section R.section t.is_past
          (J.stands X.picture n by t.first now) (R.waits X.picture n t.rest)
          (R.follows X n by t.rest now) lines w.0 (w.2 by now) w.3 h e,
    ) };
}
