//! What holds of all moments by labels and of all ellipses, as a law that callers can cite: what counts are the clauses.
//! The body does nothing.
ghost use Rattle.std.specs.Prelude.{◌≡◌, ℕ, List};
ghost use Rattle.shape_terms.specs.Pictures.{Picture};
ghost use Rattle.shape_terms.specs.Parts.{LabelsObject};
ghost use Rattle.measure_terms.specs.Moments.{Moments, AreMoments, MomentsComponents};
ghost use Rattle.measure_terms.specs.Ellipse.{Ellipse, IsEllipse};

/// Where the labels are those of a picture's object, the moments by labels are those of its components, in the order of their
/// first points. A box with labels has one list of moments, and moments have one ellipse.
pub fn moments_measure_components()
    ensures components { (X : Picture) (labels : List ℕ) (n : ℕ) (ms : List Moments)
        → LabelsObject X labels → AreMoments X.sides labels n ms
        → MomentsComponents X labels n ms }
    ensures moments_once { (sides labels : List ℕ) (n : ℕ) (ms others : List Moments)
        → AreMoments sides labels n ms → AreMoments sides labels n others → ms ≡ others }
    ensures ellipse_once { (m : Moments) (e f : Ellipse)
        → IsEllipse m e → IsEllipse m f → e ≡ f }
{}
