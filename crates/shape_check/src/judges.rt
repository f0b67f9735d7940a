//! What a judge of one section of a report owes, and what a row of judges owes.
//! A further section is one more `impl` of `SectionJudge`, a further dimension one of `Row`.
ghost use Rattle.std.specs.Prelude.{◌≡◌, ◌↔◌, ◌<◌, ◌-◌, ◌^◌, ℕ, [], ◌∷◌, ◌++◌, List, IsTrue, IfOk};
ghost use Rattle.std.specs.Bool.{OnTrue};
ghost use Rattle.shape_terms.specs.Pictures.{Picture};
ghost use Rattle.shape_terms.specs.Thinning.{Rule};
ghost use Rattle.report_terms.specs.Lines as Terms;
ghost use Rattle.report_terms.specs.Subjects.{Subject};
ghost use Rattle.report_terms.specs.Sections.{Section, rank, lines_of, SectionClaim, SectionComplete, HasCome, GoodAfter};
ghost use Rattle.shape_report.specs.LineOf.{line_of};
ghost use Rattle.shape_check.specs.Rows.{IsRuledBy, MayCome, HasEnded};

use shape_grid::Grid;
use shape_report::Line;
use shape_rules::EndRule;
use shape_space::{NoMemory, Point};
use std::alloc::Global;

/// A judge of the lines of one section behind the heading, as they come, by the number and the rule that the heading gives. After it has
/// answered false, or that memory was wanting, it is only dropped.
pub trait SectionJudge<P: Point>: Drop {
    /// Its section.
    ghost section: { Section };

    /// Whether the judge stands for these lines of the section, for a picture, a report with a number, and a rule that is
    /// in this state.
    ghost stands: { Picture → ℕ → Rule → Self → List ℕ → List Terms.Line → Type 0 };

    /// How many lines it may still take.
    ghost room: { Self → ℕ };

    /// The rank of its section.
    fn rank() -> u8
        ensures { result ≡ rank section };

    /// Takes the next line: whether its claim is true after those that were taken.
    fn take(&mut self, line: &Line<P>, rule: &mut dyn EndRule) -> Result<bool, NoMemory>
        ensures answer { let by = means rule.old in
            (X : Subject) (n : ℕ) (heading lines : List Terms.Line) → IsRuledBy X heading n by
            → stands X.picture n by self.old (state rule.old) lines → IfOk result (λ b. IsTrue b
            ↔ SectionClaim X heading section lines (line_of P.coords line.now)) }
        ensures stands { let by = means rule.old in
            (X : Picture) (n : ℕ) (lines : List Terms.Line)
            → stands X n by self.old (state rule.old) lines
            → IfOk result (λ b. OnTrue b (stands X n by self.new (state rule.new)
            (lines ++ line_of P.coords line.now ∷ []))) }
        ensures room { IfOk result (λ b. OnTrue b (room self.new < room self.old)) }
        ensures same_rule { means rule.new ≡ means rule.old };

    /// Whether the section is complete.
    fn done(&self) -> bool
        ensures { (X : Subject) (n : ℕ) (by : Rule) (now : List ℕ) (lines : List Terms.Line)
            → stands X.picture n by self.now now lines
            → (IsTrue result ↔ SectionComplete X section lines) };
}

/// The judges of a section and of all behind it. After they have answered false, or that memory was wanting, they are
/// only dropped.
pub trait Judges<P: Point>: Drop {
    /// The first section of the row.
    ghost section: { Section };

    /// Whether the row has taken no line, for this picture and a report with this number.
    ghost waits: { Picture → ℕ → Self → Type 0 };

    /// Whether the row stands for these lines, all of the report so far, its number, and a rule that is in this state.
    ghost follows: { Subject → ℕ → Rule → Self → List ℕ → List Terms.Line → Type 0 };

    /// How many lines it may still take.
    ghost room: { Self → ℕ };

    /// Takes the next line: whether it is good after those before it.
    fn take(&mut self, line: &Line<P>, rule: &mut dyn EndRule) -> Result<bool, NoMemory>
        ensures answer { let by = means rule.old in
            (X : Subject) (n : ℕ) (lines : List Terms.Line)
            → IsRuledBy X (lines_of Section.Heading lines) n by
            → follows X n by self.old (state rule.old) lines
            → MayCome X section lines (line_of P.coords line.now)
            → IfOk result (λ b. IsTrue b ↔ GoodAfter X lines (line_of P.coords line.now)) }
        ensures follows { let by = means rule.old in
            (X : Subject) (n : ℕ) (lines : List Terms.Line)
            → IsRuledBy X (lines_of Section.Heading lines) n by
            → follows X n by self.old (state rule.old) lines
            → MayCome X section lines (line_of P.coords line.now)
            → IfOk result (λ b. OnTrue b (follows X n by self.new (state rule.new)
            (lines ++ line_of P.coords line.now ∷ []))) }
        ensures room { IfOk result (λ b. OnTrue b (room self.new < room self.old)) }
        ensures same_rule { means rule.new ≡ means rule.old };

    /// Whether the line `end` was taken.
    fn has_ended(&self) -> bool
        ensures { (X : Subject) (n : ℕ) (by : Rule) (now : List ℕ) (lines : List Terms.Line)
            → follows X n by self.now now lines → (IsTrue result ↔ HasEnded lines) };

    ghost entered: { (X : Subject) (n : ℕ) (by : Rule) (r : Self) (now : List ℕ) (lines : List Terms.Line)
        → waits X.picture n r → HasCome X section lines → lines_of section lines ≡ []
        → follows X n by r now lines };
}

/// The judges of all sections behind the heading, for the reports of one dimension.
pub trait Row<P: Point>: Judges<P> {
    /// Judges of a picture that have taken no line of a report with this number.
    fn begin(alloc: Global, grid: &Grid<P>, number: u8) -> Result<Self, NoMemory>
        ensures waits { IfOk result (λ r. Self.waits grid.now number r) }
        ensures room { IfOk result (λ r. Self.room r < 2 ^ 63 - 1) };

    ghost first: { rank Self.section ≡ 1 };
}
