//! What the masks of pictures are to who reads them, as laws that callers can cite: what counts are the clauses.
//! The bodies do nothing.
ghost use Rattle.std.specs.Prelude.{◌≡◌, ◌++◌, ℕ, List};
ghost use Rattle.shape_terms.specs.Pictures.{Picture};
ghost use Rattle.shape_desk.specs.Desk.{DeskState};
ghost use Rattle.report_terms.specs.Subjects.{Subject};
ghost use Rattle.report_terms.specs.Holds.{Holds};
ghost use Rattle.report_lines.specs.Reports.{Space, flat, solid};
ghost use Rattle.report_lines.specs.Tells.{StandsIn};
ghost use Rattle.report_lines.specs.Made.{IsSpace, exactly};
ghost use Rattle.report_lines.specs.Runs.{Ran};
ghost use Rattle.report_lines.specs.Complete.{FileIs};
ghost use Rattle.report_lines.specs.declared.outcome.Outcome.TheVariants.{Done};
ghost use Rattle.masking.specs.Pictures.{pbm, voxels, pgm, depths, square_bytes};
ghost use Rattle.masking.specs.Levels.{high_number, low_number, AreLevels, AreTold};
ghost use Rattle.masking.specs.Masks.{mask_bytes};
ghost use Rattle.masking.specs.Shown.{Spell, WritesShown, grey_front};
ghost use Rattle.masking.specs.declared.mask.Mask.{Mask};

/// The mask of points is a file that the program reads as just these points: a raw PBM, or a raw volume of the same sides. That
/// of distances has the level of each square at its place, two bytes for each, and that of squares the number that stands for it,
/// four bytes for each.
pub fn masks_are_pictures()
    ensures pixels { (X : Picture) → StandsIn flat X → Spell 2 X (pbm X) }
    ensures voxels { (X : Picture) → StandsIn solid X → Spell 3 X (voxels X) }
    ensures greys { (sides squares : List ℕ) → (rest : List ℕ)
        × (pgm sides squares ≡ grey_front sides ++ rest) × AreLevels high_number squares rest }
    ensures depths { (squares : List ℕ) → AreLevels low_number squares (depths squares) }
    ensures squares { (squares : List ℕ) → AreTold squares (square_bytes squares) }
{}

/// A run that ends well for a file whose text is a report that holds of a picture has written the picture itself, what the
/// thinning by the rule that the text names leaves of it, how far its points are from the background, the
/// squares of that, or how thick the object is at each of its points.
pub fn masks_of_what_holds()
    ensures { (mask : Mask) (s : Space) (X : Subject) (name text : List ℕ) (old new : DeskState)
        → IsSpace s → StandsIn s X.picture → Holds X text
        → FileIs old.files name (λ bytes. bytes ≡ text)
        → Ran (exactly (mask_bytes mask)) name old new Done
        → WritesShown mask s.axes X text old new }
{}
