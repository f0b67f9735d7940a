//! What stretches with evidence for every gap are, as a law that callers can cite.
ghost use Rattle.std.specs.Prelude.{List};
ghost use Rattle.shape_terms.specs.Points.{Point};
ghost use Rattle.shape_terms.specs.Covers.{Stretch, IsCover};
ghost use Rattle.shape_terms.specs.GapCover.{AreGapped};

/// Straight stretches of a contour that rise, with good evidence for both axes of every gap, are exactly its maximal
/// stretches: who checks the evidence needs no search. The body does nothing: what counts is the clause.
pub fn gaps_prove_the_cover()
    ensures { (points : List Point) (stretches : List Stretch) → AreGapped points stretches
        → IsCover points stretches }
{}
