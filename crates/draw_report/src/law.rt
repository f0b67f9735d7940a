//! What holds of all drawings, as laws that callers can cite: what counts are the clauses.
//! The bodies do nothing.
ghost use Rattle.std.specs.Prelude.{◌≡◌, ◌⊎◌, ◌<◌, ◌≤◌, ℕ, List, length};
ghost use Rattle.shape_desk.specs.Desk.{DeskState};
ghost use Rattle.report_terms.specs.Subjects.{Subject};
ghost use Rattle.report_terms.specs.Holds.{Holds};
ghost use Rattle.report_terms.specs.Lines.{Line};
ghost use Rattle.report_lines.specs.Reports.{flat, IsReport};
ghost use Rattle.report_lines.specs.Tells.{StandsIn};
ghost use Rattle.report_lines.specs.Runs.{RanUpTo, RanFlat};
ghost use Rattle.report_lines.specs.Complete.{FileIs, HasNoFault};
ghost use Rattle.report_lines.specs.declared.outcome.Outcome.{Outcome};
ghost use Rattle.report_lines.specs.declared.outcome.Outcome.TheVariants.{Done, TooLarge, NoMemory};
ghost use Rattle.drawing.specs.Svg.{drawing, most_drawing};
ghost use Rattle.draw_report.specs.Drawings.{IsDrawing, IsNumberedDrawing};
ghost use Rattle.draw_report.specs.MeasureDrawings.{IsMeasuredDrawing};
ghost use Rattle.draw_report.specs.Holding.{NumbersTell, WritesNumbered};
ghost use Rattle.draw_report.specs.MeasureHolding.{MeasuresTell, WritesMeasured};

/// Of a report that holds of a flat picture, number k of the drawing stands in the k-th component of the picture, at the first
/// of its points that lie deepest, by its least squared distances to the background.
pub fn holding_is_numbered()
    ensures { (X : Subject) (text bytes : List ℕ) → Holds X text
        → StandsIn flat X.picture → NumbersTell X text bytes }
{}

/// A run of `draw labels` that ends well, for a file whose text holds of a flat picture, has written its drawing with numbers.
/// Number k stands there at the deepest point of the k-th component of the picture.
pub fn holding_is_drawn()
    ensures { (X : Subject) (name text : List ℕ) (old new : DeskState) → Holds X text
        → StandsIn flat X.picture → FileIs old.files name (λ bytes. bytes ≡ text)
        → RanUpTo most_drawing IsNumberedDrawing name old new Done → WritesNumbered X text old new }
{}

/// Of a report that holds of a flat picture, the lines of object k of the drawing with measures are those of the k-th component of
/// the picture: the axes of the ellipse with its second moments, its Feret diameter and the least width of its hull.
pub fn holding_is_measured()
    ensures { (X : Subject) (text bytes : List ℕ) → Holds X text
        → StandsIn flat X.picture → MeasuresTell X text bytes }
{}

/// A run of `draw measures` that ends well, for a file whose text holds of a flat picture, has written that drawing.
pub fn measures_are_drawn()
    ensures { (X : Subject) (name text : List ℕ) (old new : DeskState) → Holds X text
        → StandsIn flat X.picture → FileIs old.files name (λ bytes. bytes ≡ text)
        → RanFlat most_drawing IsMeasuredDrawing name old new Done → WritesMeasured X text old new }
{}

/// A run of `draw` where no call fails, for a file whose text is the report of a flat picture, tells that the drawing is too
/// large exactly where it has more bytes than are written, and has else written it; or memory was wanted.
pub fn large_drawings_are_refused()
    ensures { (name text : List ℕ) (lines : List Line) (old new : DeskState) (o : Outcome)
        → IsReport flat text lines → FileIs old.files name (λ bytes. bytes ≡ text)
        → HasNoFault old new → RanUpTo most_drawing IsDrawing name old new o
        → ((o ≡ TooLarge) × (most_drawing < length (drawing lines)))
        ⊎ (((o ≡ Done) × (length (drawing lines) ≤ most_drawing)) ⊎ (o ≡ NoMemory)) }
{}
