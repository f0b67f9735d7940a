//! Reports exist, and the counts, covers and thinnings that they tell: some text holds as the report of each picture within the sides of a command.
//! So no maker's contract is met by giving up alone. What counts are the clauses; each function has an empty body. That contours and straight runs are there is told in `proofs/`.
#![tactic(auto)]

ghost use Rattle.shape_terms.specs.Limits.{most_flat, most_solid};
ghost use Rattle.shape_terms.specs.Pictures.{Picture, IsPicture};
ghost use Rattle.shape_terms.specs.Thinning.{Rule};
ghost use Rattle.edge_terms.specs.EdgeReports.{edge_report};
ghost use Rattle.piece_terms.specs.PieceReports.{piece_report};
ghost use Rattle.ball_terms.specs.Reports.{ball_report};
ghost use Rattle.reports_exist.specs.Met.{IsMet, HasCounts, HasCovers, HasSidesTo, HasThinning};

/// Each flat picture with sides from 1 to `most_flat` has a report of the fewest straight pieces of its contours.
pub fn piece_reports_exist()
    ensures { (X : Picture) → IsPicture 2 X → HasSidesTo most_flat X → IsMet (piece_report X) }
{}

/// Each flat picture with sides from 1 to `most_flat` has a report of the standard segments of its cracks.
pub fn edge_reports_exist()
    ensures { (X : Picture) → IsPicture 2 X → HasSidesTo most_flat X → IsMet (edge_report X) }
{}

/// Each flat picture with sides from 1 to `most_flat`, and each volume with sides from 1 to `most_solid`, has a report of balls that make
/// up its object.
pub fn ball_reports_exist()
    ensures flat { (X : Picture) → IsPicture 2 X → HasSidesTo most_flat X → IsMet (ball_report X) }
    ensures solid { (X : Picture) → IsPicture 3 X → HasSidesTo most_solid X
        → IsMet (ball_report X) }
{}

/// Each flat picture with sides from 1 to `most_flat` has contours, and each of these has its cover.
pub fn covers_exist()
    ensures { (X : Picture) → IsPicture 2 X → HasSidesTo most_flat X → HasCovers X }
{}

/// Each picture, of any number of axes, has its counts.
pub fn counts_exist()
    ensures { (X : Picture) → HasCounts X }
{}

/// Each flat picture has a thinning by each rule.
pub fn thinnings_exist()
    ensures { (rule : Rule) (X : Picture) → IsPicture 2 X → HasThinning rule X }
{}
