//! What holds of all tables, as a law that callers can cite: what counts are the clauses.
//! The body does nothing.
ghost use Rattle.std.specs.Prelude.{◌≡◌, ◌<◌, ℕ, List};
ghost use Rattle.shape_terms.specs.Pictures.{Picture};
ghost use Rattle.measure_terms.specs.Measures.{Measures};
ghost use Rattle.measure_terms.specs.Tables.{IsTable};
ghost use Rattle.measure_terms.specs.Components.{MeasuresComponents};
ghost use Rattle.measure_terms.specs.Rounding.{IsMean, IsRoot, mean, root};

/// A table has one row for each component, in the order of their first points, and each row has the measures of its
/// component, as those of a set of points. Means and roots are rounded to nearest.
pub fn table_measures_components()
    ensures components { (X left : Picture) (squares : List ℕ) (table : List Measures)
        → left.sides ≡ X.sides → IsTable X squares left table
        → MeasuresComponents X squares left table }
    ensures means { (sum count : ℕ) → 0 < count → IsMean sum count (mean sum count) }
    ensures roots { (square r : ℕ) → IsRoot square r → r ≡ root square }
{}
