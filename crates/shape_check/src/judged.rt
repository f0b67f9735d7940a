//! The judge of a report behind its heading: a row of judges, and the rule that the heading names, which each of their calls is lent.
//! Which line is good next is known to the row, and how a text is gone through to `report_text`.
ghost use Rattle.std.specs.Prelude.{◌≡◌};

use crate::judges::Row;
use report_text::ReportJudge;
use shape_report::Line;
use shape_rules::EndRule;
use shape_space::{NoMemory, Point};

/// A row of judges, and the rule that its calls are lent.
#[derive(Drop)]
pub(crate) struct Judged<'r, R> {
    pub(crate) row: R,
    pub(crate) rule: &'r mut Box<dyn EndRule>,
}

impl<P: Point, R: Row<P>> ReportJudge<Line<P>> for Judged<'_, R> {
    ghost use Rattle.report_terms.specs.Subjects.{Subject};
    ghost use Rattle.report_terms.specs.Sections.{GoodAfter};
    ghost use Rattle.report_terms.proofs.SectionLaws.{is_report};
    ghost use Rattle.shape_check.specs.Going.{Ruled};

    ghost About = { Subject };

    ghost good = { GoodAfter };

    ghost stands = { λ X j. Ruled X ((EndRule-box j.rule.now).means j.rule.now.value)
        (λ n. R.follows X n ((EndRule-box j.rule.now).means j.rule.now.value) j.row
        ((EndRule-box j.rule.now).state j.rule.now.value)) };

    ghost room = { λ j. R.room j.row };

    ghost same = { λ j k. (k.rule.ghost_name ≡ j.rule.ghost_name)
        × ((EndRule-box k.rule.now).means k.rule.now.value
        ≡ (EndRule-box j.rule.now).means j.rule.now.value) };

    #[inline(always)]
    fn take(&mut self, line: &Line<P>) -> Result<bool, NoMemory> {
        self.row.take(line, &mut **self.rule)
    }

    fn has_ended(&self) -> bool {
        self.row.has_ended()
    }

    ghost ends = { λ X. record { ends = (is_report X).ends } };
}
