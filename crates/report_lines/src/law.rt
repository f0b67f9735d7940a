//! What the lines of every report tell, as laws that callers can cite: what counts are the clauses.
//! The bodies do nothing.
ghost use Rattle.std.specs.Prelude.{◌≡◌, ℕ, List, length, map, pos};
ghost use Rattle.shape_terms.specs.Points.{AreSides};
ghost use Rattle.report_terms.specs.Subjects.{Subject};
ghost use Rattle.report_terms.specs.Lines.{Line};
ghost use Rattle.report_terms.specs.Holds.{Holds};
ghost use Rattle.report_lines.specs.Reports.{Space, flat, solid, IsReport, FirstBad};
ghost use Rattle.report_lines.specs.Tells.{StandsIn, Tells};

/// A report that holds of a picture is one in order, which has no first bad line, and its lines tell the picture, its least
/// squared distances, and the points that its thinning leaves.
pub fn holding_tells()
    ensures in_order { (s : Space) (X : Subject) (text : List ℕ) → Holds X text
        → length X.picture.sides ≡ s.axes → AreSides s.greatest (map pos X.picture.sides)
        → (lines : List Line) × IsReport s text lines }
    ensures tells { (s : Space) (X : Subject) (text : List ℕ) → Holds X text
        → StandsIn s X.picture → Tells s X text }
    ensures not_refused { (s : Space) (text : List ℕ) (lines : List Line) (k : ℕ)
        → IsReport s text lines → FirstBad s text k → ⊥ }
{}

/// A text is a report of one picture at most: its lines are known from it, and no text is a report of a flat picture and of a
/// volume.
pub fn one_reading()
    ensures lines { (s : Space) (text : List ℕ) (lines other : List Line)
        → IsReport s text lines → IsReport s text other → lines ≡ other }
    ensures space { (text : List ℕ) (lines other : List Line)
        → IsReport flat text lines → IsReport solid text other → ⊥ }
{}
