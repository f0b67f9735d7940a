//! What holds of the sums by labels, as laws that callers can cite: what counts are the clauses.
//! The body does nothing.
ghost use Rattle.std.specs.Prelude.{◌≡◌, ℕ, List};
ghost use Rattle.shape_terms.specs.Pictures.{Picture};
ghost use Rattle.shape_terms.specs.Parts.{LabelsObject};
ghost use Rattle.measure_terms.specs.ThicknessColumns.{ThicknessSum, AreThicknessSums, ThicknessSumsComponents};

/// Where the labels are those of a picture's object, the sums by labels are those of its components, in the order of their
/// first points; and there is one list of them.
pub fn thickness_sums_measure_components()
    ensures components { (X : Picture) (labels : List ℕ) (n : ℕ) (ts : List ℕ)
        (ss : List ThicknessSum)
        → LabelsObject X labels → AreThicknessSums X.sides labels n ts ss
        → ThicknessSumsComponents X labels n ts ss }
    ensures once { (sides labels : List ℕ) (n : ℕ) (ts : List ℕ) (ss us : List ThicknessSum)
        → AreThicknessSums sides labels n ts ss → AreThicknessSums sides labels n ts us → ss ≡ us }
{}
