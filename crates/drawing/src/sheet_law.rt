//! What a sheet shows, as laws that callers can cite: what counts are the clauses.
//! The bodies do nothing.
ghost use Rattle.std.specs.Prelude.{◌≡◌, ◌≤◌, List, [], Contains, All, IsTrue};
ghost use Rattle.shape_terms.specs.Points.{Point, in_box};
ghost use Rattle.drawing.specs.declared.cell.Cell.{Cell};
ghost use Rattle.drawing.specs.declared.layout.Panel.{Panel};
ghost use Rattle.drawing.specs.declared.layout.Triple.{Triple};
ghost use Rattle.drawing.specs.Canvas.{Dab, cells_at, shown};
ghost use Rattle.drawing.specs.Layout.{IsBox, IsIn, place, sheet_sides};

/// What is shown at a place is one of the cells laid there, none of them lies nearer, and nothing is shown where none was laid.
pub fn nearest_is_shown()
    ensures one { (dabs : List Dab) (q : Point) (c : Cell) → shown dabs q ≡ Some c
        → Contains (cells_at dabs q) c }
    ensures nearest { (dabs : List Dab) (q : Point) (c : Cell) → shown dabs q ≡ Some c
        → All (λ b. c.depth ≤ b.depth) (cells_at dabs q) }
    ensures none { (dabs : List Dab) (q : Point) → shown dabs q ≡ None → cells_at dabs q ≡ [] }
{}

/// Each part of the sheet shows each voxel of the box at a place of the sheet.
pub fn voxels_have_places()
    ensures { (s v : Triple) (k : Panel) → IsBox s → IsIn s v
        → IsTrue (in_box (sheet_sides s) (place s k v)) }
{}
