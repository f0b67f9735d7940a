//! What is kept of a report's lines while they are read.
//! A further program is one more `impl`; sketches of several things are put together in a struct of them.
ghost use Rattle.std.specs.Prelude.{◌++◌, ◌∷◌, [], List, OnOk};
ghost use Rattle.report_terms.specs.Lines as Terms;
ghost use Rattle.shape_report.specs.LineOf.{line_of};

use shape_report::Line;
use shape_space::{NoMemory, Point};

/// What is kept of a report's lines, one after another. After a failed call it is only dropped.
pub trait Sketch<P: Point>: Drop {
    /// Whether it is the sketch of these lines.
    ghost IsOf: { List Terms.Line → Self → Type 0 };

    /// Takes the next line.
    fn take(&mut self, line: &Line<P>) -> Result<(), NoMemory>
        ensures { (lines : List Terms.Line) → IsOf lines self.old
            → OnOk result (IsOf (lines ++ line_of P.coords line.now ∷ []) self.new) };
}
