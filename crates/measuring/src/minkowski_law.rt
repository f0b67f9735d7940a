//! What holds of all numbers by labels, as laws that callers can cite: what counts are the clauses.
//! The bodies do nothing.
ghost use Rattle.std.specs.Prelude.{◌≡◌, ◌<◌, ℕ, List, slice_index_or};
ghost use Rattle.shape_terms.specs.Pictures.{Picture};
ghost use Rattle.shape_terms.specs.Parts.{LabelsObject};
ghost use Rattle.measure_terms.specs.Minkowski as Terms;
ghost use Rattle.measure_terms.specs.Whole.{IsWhole};

/// Where the labels are those of a picture's object, the numbers by labels are those of its components, in the order of their
/// first points.
pub fn minkowski_measures_components()
    ensures { (X : Picture) (labels : List ℕ) (n : ℕ) (ms : List Terms.Minkowski)
        → LabelsObject X labels → Terms.AreMinkowski X.sides labels n ms
        → Terms.MinkowskiComponents X labels n ms }
{}

/// A picture's object has one Euler number, and one number of steps out of each kind; so has each of its components.
pub fn minkowski_is_determined()
    ensures whole { (X : Picture) (m n : Terms.Minkowski) → IsWhole X m → IsWhole X n → m ≡ n }
    ensures components { (X : Picture) (labels : List ℕ) (n k : ℕ)
        (ms ns : List Terms.Minkowski) (c d : Terms.Minkowski)
        → Terms.MinkowskiComponents X labels n ms → Terms.MinkowskiComponents X labels n ns
        → k < n → slice_index_or ms k c ≡ slice_index_or ns k d }
{}
