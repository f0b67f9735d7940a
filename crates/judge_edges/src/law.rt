//! What an edge report that holds shows, as a law that callers can cite.
//! What counts is the clause; the body does nothing.
ghost use Rattle.std.specs.Prelude.{ℕ, List};
ghost use Rattle.shape_terms.specs.Pictures.{Picture};
ghost use Rattle.text_terms.specs.Reports.{Holds};
ghost use Rattle.edge_terms.specs.EdgeReports.{edge_report};
ghost use Rattle.edge_terms.specs.EdgeFacts.{EdgesShow};

/// An edge report that holds of a picture lists, for each cycle of cracks in the order of their least cracks, exactly the maximal straight
/// runs of its corner path, each with a standard line that holds it, and for each gap evidence that no longer run was missed.
#[tactic(auto, using(edge_terms::proofs::EdgesShown::holds_shows))]
pub fn edges_holding_shows()
    ensures { (X : Picture) (text : List ℕ) → Holds (edge_report X) text → EdgesShow X text }
{}
