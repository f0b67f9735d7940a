//! What the answers of a check mean, as laws that callers can cite: what counts are the clauses.
//! A further law is one more function with an empty body.
ghost use Rattle.std.specs.Prelude.{◌≡◌, ◌≢◌, ◌+◌, ◌++◌, [], ℕ, List, Some, Result, Ok, Err, All, length};
ghost use Rattle.shape_terms.specs.Pictures.{Picture};
ghost use Rattle.shape_desk.specs.Desk.{Rose};
ghost use Rattle.report_terms.specs.Subjects.{Subject};
ghost use Rattle.report_terms.specs.Holds.{Holds, FirstBad};
ghost use Rattle.report_terms.specs.ContourFacts.{ContourFact, SegmentIsLeastOfBoth, ContoursShow};
ghost use Rattle.report_terms.specs.Shows.{TextShows};
ghost use Rattle.text_terms.specs.Texts.{line_ends};
ghost use Rattle.report_text.specs.Checks.{Answer};
ghost use Rattle.report_text.specs.declared.answer.CheckFault.TheVariants.{NoMemory};
ghost use Rattle.report_text.specs.declared.answer.Judgement.TheVariants.{Yes};
ghost use Rattle.shape_check.specs.Checks.{Checks};

/// A report that holds of a picture shows what it says: the counts of the picture; a nearest
/// background point of the whole space for each object point, in raster order; and, where the picture
/// is flat, its contours, each from its least crack and with its points, its segments and its gaps.
#[tactic(auto, using(report_terms::proofs::HoldsShows::holds_shows))]
pub fn holding_shows()
    ensures { (X : Subject) (text : List ℕ) → Holds X text → TextShows X text }
{}

/// The line of each segment that a report with the number 2 shows of a flat picture is least for its axis; no naive line of
/// either axis that holds the segment's points has a lesser main coefficient.
pub fn least_lines_are_least_of_both_axes()
    ensures { (X : Picture) (facts : List ContourFact) → length X.sides ≡ 2 → ContoursShow 2 X facts
        → All (λ (f : ContourFact). All (SegmentIsLeastOfBoth f.outline.points) f.segments) facts }
{}

/// A text has one first bad line at most, so `No` answers the line that it means.
pub fn one_first_bad()
    ensures { (X : Subject) (text : List ℕ) (k m : ℕ) → FirstBad X text k
        → FirstBad X text m → k ≡ m }
{}

/// A report that was cut is bad in the line that the cut fell in, the first that has no line end, or that is not there.
///
/// Where line ends are left of it, they end good lines.
pub fn cut_reports_are_bad()
    ensures { (X : Subject) (front more : List ℕ) → Holds X (front ++ more) → more ≢ []
        → FirstBad X front (line_ends front + 1) }
{}

/// A report with some bytes behind it is bad in the line behind its last.
pub fn longer_reports_are_bad()
    ensures { (X : Subject) (text more : List ℕ) → Holds X text → more ≢ []
        → FirstBad X (text ++ more) (line_ends text + 1) }
{}

/// A report that holds is answered `Yes`, where memory was found and no count of faults rose.
pub fn holding_is_answered()
    ensures { (X : Subject) (text : List ℕ) (before now : ℕ) (answer : Answer) → Holds X text
        → Checks X (Some text) before now answer → (Rose before now → ⊥) → answer ≢ Err NoMemory
        → answer ≡ Ok Yes }
{}
