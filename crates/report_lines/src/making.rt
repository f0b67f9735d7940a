//! What a program keeps of a report's lines, and what it makes of that.
//! Another space is one more kept type with two methods here, and one more arm in `make`.
ghost use Rattle.std.specs.Prelude.{[], ◌∷◌, List, IfOk};
ghost use Rattle.report_terms.specs.Lines.{Line};
ghost use Rattle.report_lines.specs.Seen.{flat_line, solid_line};
ghost use Rattle.report_lines.specs.Made.{Maker};

use crate::opening::Heading;
use crate::sketch::Sketch;
use shape_space::{NoMemory, P2, P3};
use std::alloc::Global;

/// What a program makes of a report, by way of what it keeps of the lines.
pub trait Making {
    /// What it keeps of the lines about a flat picture.
    type Flat: Sketch<P2>;

    /// What it keeps of the lines about a volume.
    type Solid: Sketch<P3>;

    /// Which bytes may be made, for each number of axes and of these lines.
    ghost makes: { Self → Maker };

    /// Keeps the heading of a flat picture's report.
    fn begin_flat(&self, alloc: Global, heading: &Heading<P2>) -> Result<Self::Flat, NoMemory>
        ensures { IfOk result (Self.Flat.IsOf (flat_line heading.now.line ∷ [])) };

    /// Makes the bytes of what is kept of a flat picture's report.
    fn make_flat(&self, alloc: Global, kept: Self::Flat) -> Result<Vec<u8>, NoMemory>
        ensures { (lines : List Line) → Self.Flat.IsOf lines kept
            → IfOk result (λ v. makes self.now 2 lines v.items) };

    /// Keeps the heading of a volume's report.
    fn begin_solid(&self, alloc: Global, heading: &Heading<P3>) -> Result<Self::Solid, NoMemory>
        ensures { IfOk result (Self.Solid.IsOf (solid_line heading.now.line ∷ [])) };

    /// Makes the bytes of what is kept of a volume's report.
    fn make_solid(&self, alloc: Global, kept: Self::Solid) -> Result<Vec<u8>, NoMemory>
        ensures { (lines : List Line) → Self.Solid.IsOf lines kept
            → IfOk result (λ v. makes self.now 3 lines v.items) };
}
