//! What a report of straight pieces that holds shows, as a law that callers can cite.
ghost use Rattle.std.specs.Prelude.{ℕ, List};
ghost use Rattle.shape_terms.specs.Pictures.{Picture};
ghost use Rattle.text_terms.specs.Reports.{Holds};
ghost use Rattle.piece_terms.specs.PieceReports.{piece_report};
ghost use Rattle.piece_terms.specs.Shown.{PiecesShow};

/// A report that holds gives for each contour of the picture, in order, a split with the fewest pieces of all its splits. The
/// body does nothing: what counts is the clause.
pub fn pieces_holding_shows()
    ensures { (X : Picture) (text : List ℕ) → Holds (piece_report X) text → PiecesShow X text }
{}
