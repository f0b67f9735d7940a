//! What is kept of a flat picture's report for its table: its number, what it says of the points of its box, and its contours.
//! Each part knows for itself what it keeps.
ghost use Rattle.std.specs.Prelude.{◌≡◌, [], ◌∷◌, IfOk};
ghost use Rattle.report_terms.specs.Sections.{number_of};
ghost use Rattle.report_lines.specs.Seen.{flat_line};
ghost use Rattle.measure_report.specs.Outlined.{IsOutlined};

use bordering::Contours;
use report_lines::{Heading, Seen, Sketch};
use shape_report::Line;
use shape_space::{NoMemory, P2};
use std::alloc::Global;

/// The number of a report, what it says of the points of its box, and its contours.
#[derive(Drop)]
pub struct Outlined {
    pub(crate) number: u8,
    pub(crate) seen: Seen<P2>,
    pub(crate) contours: Contours,
}

// The number that a heading gives.
fn number(line: &Line<P2>) -> u8
    ensures { result ≡ number_of (flat_line line.now ∷ []) }
{
    match line {
        Line::Shape { number, .. } => *number,
        _ => 0,
    }
}

impl Outlined {
    // What a heading says.
    pub(crate) fn new(alloc: Global, heading: &Heading<P2>) -> Result<Outlined, NoMemory>
        ensures { IfOk result (IsOutlined (flat_line heading.now.line ∷ [])) }
    {
        let seen = Seen::new(alloc, heading)?;
        Ok(Outlined {
            number: number(&heading.line),
            seen,
            contours: Contours::new(alloc),
        })
    }
}

impl Sketch<P2> for Outlined {
    ghost use Rattle.measure_report.specs.Outlined.{IsOutlined};

    ghost IsOf = { IsOutlined };

    fn take(&mut self, line: &Line<P2>) -> Result<(), NoMemory> {
        self.seen.take(line)?;
        self.contours.take(line)?;
        Ok(())
    }
}
