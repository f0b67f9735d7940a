//! What is kept of a flat picture's report for its drawing with numbers: its layers, and what it says of the points of its box.
//! Each part knows for itself what it keeps.
ghost use Rattle.std.specs.Prelude.{[], ◌∷◌, IfOk};
ghost use Rattle.report_lines.specs.Seen.{flat_line};
ghost use Rattle.draw_report.specs.Kept.{IsNumberedOf};

use drawing::FlatSketch;
use report_lines::{Heading, Seen, Sketch};
use shape_report::Line;
use shape_space::{NoMemory, P2};
use std::alloc::Global;

/// The layers of a report, and what it says of the points of its box.
#[derive(Drop)]
pub struct Numbered {
    pub(crate) sketch: FlatSketch,
    pub(crate) seen: Seen<P2>,
}

impl Numbered {
    // What a heading says.
    pub(crate) fn new(alloc: Global, heading: &Heading<P2>) -> Result<Numbered, NoMemory>
        ensures { IfOk result (IsNumberedOf (flat_line heading.now.line ∷ [])) }
    {
        let sketch = FlatSketch::new(alloc, heading)?;
        let seen = Seen::new(alloc, heading)?;
        Ok(Numbered { sketch, seen })
    }
}

impl Sketch<P2> for Numbered {
    ghost use Rattle.draw_report.specs.Kept.{IsNumberedOf};

    ghost IsOf = { IsNumberedOf };

    fn take(&mut self, line: &Line<P2>) -> Result<(), NoMemory> {
        self.sketch.take(line)?;
        self.seen.take(line)?;
        Ok(())
    }
}
