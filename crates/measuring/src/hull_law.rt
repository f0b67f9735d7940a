//! What holds of all sizes of hulls and of distances by a spacing, as laws that callers can cite: what counts are the clauses.
//! The bodies do nothing.
ghost use Rattle.std.specs.Prelude.{◌≡◌, ◌+◌, ◌<◌, ◌≤◌, ℕ, List, length, slice_index_or, pos, Contains};
ghost use Rattle.shape_terms.specs.Points.{Point, squared_distance};
ghost use Rattle.shape_terms.specs.Pictures.{Picture};
ghost use Rattle.shape_terms.specs.Parts.{LabelsObject};
ghost use Rattle.measure_terms.specs.Spacing.{spaced_distance, unit_spacing};
ghost use Rattle.measure_terms.specs.Measures.{greatest};
ghost use Rattle.measure_terms.specs.Components.{component};
ghost use Rattle.measure_terms.specs.Hulls.{IsCornerOf};
ghost use Rattle.measure_terms.specs.Widths.{IsLeastWidth};
ghost use Rattle.measure_terms.specs.HullSizes.{HullSize, AreHulls, HullsComponents};

/// Where the labels are those of a picture's object, the sizes by labels are those of its components, in the order of their first
/// points; two lists of them agree in each row; and no width of a component's corners in a direction of whole numbers is less than
/// the one that its size tells, which is a width of them.
pub fn hulls_measure_components()
    ensures hulls { (X : Picture) (labels : List ℕ) (n : ℕ) (zs : List HullSize)
        → LabelsObject X labels → n ≤ greatest labels → AreHulls X.sides labels n zs
        → HullsComponents X labels n zs }
    ensures one { (X : Picture) (labels : List ℕ) (n : ℕ) (ys zs : List HullSize)
        → HullsComponents X labels n ys → HullsComponents X labels n zs
        → (k : ℕ) (d : HullSize) → k < n → slice_index_or ys k d ≡ slice_index_or zs k d }
    ensures least { (X : Picture) (labels : List ℕ) (n : ℕ) (zs : List HullSize)
        → HullsComponents X labels n zs → (k : ℕ) (d : HullSize) → k < n
        → IsLeastWidth (IsCornerOf (Contains (component X labels (k + 1))))
        (pos (slice_index_or zs k d).across) (pos (slice_index_or zs k d).length) }
{}

/// Where the sides of pixels and voxels are the unit, the squared distances that a spacing gives are those of points.
pub fn unit_distances_are_those_of_points()
    ensures { (p q : Point) → length p ≤ 3
        → spaced_distance unit_spacing p q ≡ squared_distance p q }
{}
