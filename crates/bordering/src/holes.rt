//! What the contours of a component bound, and which holes a table of objects counts, as laws that callers can cite.
//! The bodies do nothing: the theorem stands in `measure_terms`.
ghost use Rattle.std.specs.Prelude.{◌≡◌, ℕ, ◌+◌, ◌<◌, Bool, List, length, slice_index};
ghost use Rattle.shape_terms.specs.Points.{Point, IsPoint, raster_number};
ghost use Rattle.shape_terms.specs.Adjacency.{Near, Side};
ghost use Rattle.shape_terms.specs.Pictures.{Picture};
ghost use Rattle.shape_terms.specs.Contours.{Crack, AreCycles};
ghost use Rattle.shape_terms.specs.Parts.{InFrame, Object, LabelsObject, NamesParts, HasParts};
ghost use Rattle.measure_terms.specs.ComponentContours.{IsComponent, contours_of};
ghost use Rattle.measure_terms.specs.Holes.{InHole, inner_contours};
ghost use Rattle.measure_terms.specs.Jordan.{Jordan};
ghost use Rattle.measure_terms.specs.Borders as Terms;
ghost use Rattle.measure_terms.specs.Begins.{BeginAsContours};
ghost use Rattle.measure_terms.specs.HolesShown.{HolesShow};

/// The contours of a component of a flat picture's object bound the components of its complement, one each, in the plane and in
/// the framed box alike. The inner ones are as many as it has holes, and it has one contour more than holes.
pub fn contours_bound_components()
    ensures plane { (X : Picture) → length X.sides ≡ 2 → (K : Point → Bool) → IsComponent X K
        → (cycles : List (List Crack)) → AreCycles X cycles → Jordan X (IsPoint 2) K cycles }
    ensures frame { (X : Picture) → length X.sides ≡ 2 → (K : Point → Bool) → IsComponent X K
        → (cycles : List (List Crack)) → AreCycles X cycles → Jordan X (InFrame X.sides) K cycles }
    ensures inner { (X : Picture) → length X.sides ≡ 2 → (K : Point → Bool) → IsComponent X K
        → (cycles : List (List Crack)) → AreCycles X cycles
        → HasParts Side (InHole K) (length (inner_contours K cycles)) }
    ensures one_more { (X : Picture) → length X.sides ≡ 2 → (K : Point → Bool) → IsComponent X K
        → (cycles : List (List Crack)) → AreCycles X cycles → (n : ℕ) → HasParts Side (InHole K) n
        → length (contours_of K cycles) ≡ 1 + n }
{}

/// Of the borders that begin as the contours of a flat picture do, those that begin in one component of its object are one outer
/// border and as many borders of holes as the component has holes.
///
/// So the column `holes` of a table tells the number of holes of each component.
pub fn holes_are_those_of_the_component()
    ensures { (X : Picture) → length X.sides ≡ 2 → (bs : List Terms.Border) → BeginAsContours X bs
        → (labels : List ℕ) → LabelsObject X labels
        → (n : ℕ) → NamesParts Near (Object X) n (λ p. slice_index labels (raster_number X.sides p))
        → (k : ℕ) → k < n → HolesShow X labels (k + 1) bs }
{}
