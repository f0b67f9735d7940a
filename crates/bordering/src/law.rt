//! Why a length is within two units of the true one for each step, whose borders a report that holds tells, and that their
//! lengths depend on the picture alone, as laws that callers can cite. The bodies do nothing.
ghost use Rattle.std.specs.Prelude.{◌≡◌, ℕ, ◌<◌, List, ◌∷◌, length, map};
ghost use Rattle.report_terms.specs.Subjects.{Subject};
ghost use Rattle.report_terms.specs.Lines.{Line};
ghost use Rattle.report_terms.specs.Holds.{Holds};
ghost use Rattle.report_terms.specs.Shows.{content_of};
ghost use Rattle.report_terms.specs.ContourFacts.{ContourFact, ContoursShow};
ghost use Rattle.shape_terms.specs.Pictures.{Picture};
ghost use Rattle.measure_terms.specs.Quotients.{IsRootQuotient, root_quotient};
ghost use Rattle.measure_terms.specs.Means.{IsMean};
ghost use Rattle.measure_terms.specs.Lengths.{mean};
ghost use Rattle.measure_terms.specs.Borders.{Border, borders};
ghost use Rattle.measure_terms.specs.Begins.{BeginAsContours};
ghost use Rattle.measure_terms.specs.Shown.{border_shown, HaveLengths, BordersShow};
ghost use Rattle.bordering.specs.Tells.{TellsBorders};

/// The length of a step along a line is the true one rounded down to whole units, and the mean of several is their true mean
/// rounded down. So a contour of N steps is told short by less than 2 N units, which is less than a thousandth of a pixel for
/// each contour of less than five hundred million points.
pub fn shares_are_rounded_down()
    ensures share { (v n : ℕ) → 0 < n → IsRootQuotient v n (root_quotient v n) }
    ensures mean { (x : ℕ) (xs : List ℕ) → IsMean (x ∷ xs) (mean (x ∷ xs)) }
{}

/// The borders that a report of a flat picture tells, where it holds, begin where the picture's contours do, in their order.
/// Where its first line gives the number 2, and no side is longer than those of flat pictures may be, each has the length of its
/// contour along the least lines of its tangential cover: no segment is left out.
pub fn holding_tells_borders()
    ensures lines { (number : ℕ) (X : Picture) (lines : List Line)
        → ContoursShow number X (content_of lines).contours → BordersShow number X (borders lines) }
    ensures text { (X : Subject) (text : List ℕ) → length X.picture.sides ≡ 2 → Holds X text
        → TellsBorders X.picture text }
{}

/// The lengths of borders along the least lines of tangential covers depend on the picture alone, whatever lines, axes and
/// evidence a report gives. Where borders begin depends on the picture alone in each report.
pub fn borders_depend_on_the_picture()
    ensures facts { (X : Picture) (facts others : List ContourFact) → length X.sides ≡ 2
        → ContoursShow 2 X facts → ContoursShow 2 X others
        → map border_shown facts ≡ map border_shown others }
    ensures lengths { (X : Picture) (bs cs : List Border) → length X.sides ≡ 2
        → HaveLengths X bs → HaveLengths X cs → bs ≡ cs }
    ensures starts { (X : Picture) (bs cs : List Border) → BeginAsContours X bs
        → BeginAsContours X cs
        → map (λ (b : Border). b.start) bs ≡ map (λ (b : Border). b.start) cs }
{}
