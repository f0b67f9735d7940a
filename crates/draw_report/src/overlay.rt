//! The top call: a further report, drawn over the object of an analysis.
//! What each answer means stands in `specs/Answers.antt`.
ghost use Rattle.shape_desk.specs.Desk.{OnlyReads};
ghost use Rattle.draw_report.specs.Answers.{Overlaid};

use crate::fault::OverFault;
use crate::further::read_further;
use crate::over_layers::draw;
use crate::read::read_analysis;
use shape_desk::Desk;
use std::alloc::Global;

/// Draws the further report in a file over the object of the analysis in another: an SVG.
///
/// The analysis is read first, and whole; both are files with these names, or one. Neither is checked: what they claim is drawn
/// as it stands. Nothing is written. Want of memory may be answered at any time.
pub fn overlaid<D: Desk>(
    alloc: Global,
    analysis: &[u8],
    further: &[u8],
    desk: &mut D,
) -> Result<Vec<u8>, OverFault>
    ensures answer { Overlaid (λ svg. svg.items) analysis.now further.now
        (D.state desk.old) (D.state desk.new) result }
    ensures only { OnlyReads (D.state desk.old) (D.state desk.new) }
{
    let object = match read_analysis(alloc, analysis, desk) {
        Ok(object) => object,
        Err(why) => return Err(OverFault::Analysis(why)),
    };
    let marks = read_further(alloc, further, object.sides.lengths, desk)?;
    match draw(alloc, &object, &marks) {
        Ok(svg) => Ok(svg),
        Err(_) => Err(OverFault::NoMemory),
    }
}
