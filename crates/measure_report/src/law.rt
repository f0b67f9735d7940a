//! What the table of a report tells that holds of a picture, that such reports have one table, and what a run wrote of them, as
//! laws that callers can cite: what counts are the clauses. The bodies do nothing.
ghost use Rattle.std.specs.Prelude.{◌≡◌, ℕ, List};
ghost use Rattle.shape_terms.specs.Shelves.{AreNames, names_of};
ghost use Rattle.shape_desk.specs.Desk.{DeskState};
ghost use Rattle.report_terms.specs.Subjects.{Subject};
ghost use Rattle.report_terms.specs.Holds.{Holds};
ghost use Rattle.report_lines.specs.Reports.{Space, flat, solid};
ghost use Rattle.report_lines.specs.Tells.{StandsIn};
ghost use Rattle.report_lines.specs.Made.{IsSpace};
ghost use Rattle.report_lines.specs.Runs.{Ran};
ghost use Rattle.report_lines.specs.Complete.{FileIs};
ghost use Rattle.report_lines.specs.declared.outcome.Outcome.TheVariants.{Done};
ghost use Rattle.measure_report.specs.TableTexts.{IsTableText};
ghost use Rattle.measure_report.specs.Holding.{TableTells};
ghost use Rattle.measure_report.specs.Tabled.{HasTable};
ghost use Rattle.measure_report.specs.Whole.{WritesMeasures, RanWhole, WriteAlike};
ghost use Rattle.measure_report.specs.declared.groups.Groups.{Groups};

/// Of a report that holds of a picture, row k of the table has the measures of the k-th component of the picture, by its least
/// squared distances to the background and by the points that its thinning leaves. In the plane its borders are the contours
/// of the picture that begin in it, and its holes are counted: the bounded components of what is not in it. Where the first
/// line gives the number 2, each border is measured along the least lines of its tangential cover; else no length is told.
pub fn holding_measures()
    ensures { (g : Groups) (s : Space) (X : Subject) (text bytes : List ℕ) → IsSpace s
        → Holds X text → StandsIn s X.picture → TableTells g s X text bytes }
{}

/// Two reports that hold of one picture, with one number and of one rule, have one table: their tables are equal byte by byte,
/// whatever lines, axes and evidence they give.
pub fn tables_are_one()
    ensures flat { (g : Groups) (X : Subject) (number : ℕ) (name text other bytes more : List ℕ)
        → AreNames (names_of X.shelf) → StandsIn flat X.picture
        → HasTable g flat X number name text bytes → HasTable g flat X number name other more
        → bytes ≡ more }
    ensures solid { (g : Groups) (X : Subject) (number : ℕ) (name text other bytes more : List ℕ)
        → AreNames (names_of X.shelf) → StandsIn solid X.picture
        → HasTable g solid X number name text bytes → HasTable g solid X number name other more
        → bytes ≡ more }
{}

/// A run that ends well for a file whose text is a report that holds of a picture has written bytes that spell the measures of
/// the picture's components. Two such runs, of reports of one picture with one number and of one rule, have written the same.
pub fn tables_of_what_holds()
    ensures measures { (g : Groups) (s : Space) (X : Subject) (name text : List ℕ)
        (old new : DeskState)
        → IsSpace s → StandsIn s X.picture → Holds X text
        → FileIs old.files name (λ bytes. bytes ≡ text)
        → Ran (IsTableText g) name old new Done
        → WritesMeasures g s X text old new }
    ensures alike { (g : Groups) (s : Space) (X : Subject) (number : ℕ) (rule : List ℕ)
        (old new before after : DeskState)
        → IsSpace s → AreNames (names_of X.shelf) → StandsIn s X.picture
        → RanWhole g s X number rule old new → RanWhole g s X number rule before after
        → WriteAlike old new before after }
{}
