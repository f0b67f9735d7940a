//! Reading the lines of a report behind its heading, each in turn, for a sketch of them.
//! Which lines come in order is known to `ordered`; what is kept of them, to the sketch.
ghost use Rattle.std.specs.Prelude.{◌≡◌, [], ◌∷◌, ℕ, List, Option, true};
ghost use Rattle.shape_desk.specs.Desk.{OnlyReadsAt};
ghost use Rattle.shape_desk.specs.Line.{ahead_of, IfTold};
ghost use Rattle.shape_desk.specs.declared.desk.Place.TheVariants.{Report};
ghost use Rattle.report_terms.specs.Lines as Terms;
ghost use Rattle.report_lines.specs.Reports.{space};
ghost use Rattle.report_lines.specs.Headings.{TakesHeading};
ghost use Rattle.report_lines.specs.Answers.{Reads};

use crate::fault::ReportFault;
use crate::ordered::Ordered;
use crate::sketch::Sketch;
use report_text::{CheckFault, Judgement, check_from};
use shape_desk::{Desk, LineReader};
use shape_report::Line;
use shape_space::Point;

/// Reads the lines behind the heading, and hands each to the sketch, which is that of the heading alone.
///
/// The sketch of all lines is answered exactly where the text is a report whose lines come in order. `ReadFault` comes only
/// where `read_faults` rose in this call. Want of memory may be answered at any time, and comes for a report of more than
/// 2^61 lines as well.
pub fn read_lines<P: Point, S: Sketch<P>, D: Desk>(
    sketch: S,
    reader: &mut LineReader,
    desk: &mut D,
) -> Result<S, ReportFault>
    requires { (D.state desk.old).begun Report ≡ true }
    ensures answer { (text : Option (List ℕ)) (heading : Terms.Line) → IfTold text (λ bytes.
        TakesHeading (space P.DIM P.MAX_SIDE) bytes
        (ahead_of reader.old.ahead ((D.state desk.old).left Report)) heading)
        → S.IsOf (heading ∷ []) sketch
        → Reads (space P.DIM P.MAX_SIDE) S.IsOf text
        (D.state desk.old).read_faults (D.state desk.new).read_faults result }
    ensures reads { OnlyReadsAt Report (D.state desk.old) (D.state desk.new) }
{
    let mut lines = Ordered::new(sketch);
    match check_from::<Line<P>, Ordered<P, S>, D>(&mut lines, reader, desk, 2) {
        Ok(Judgement::Yes) => Ok(lines.into_sketch()),
        Ok(Judgement::No { line }) => Err(ReportFault::NotReport { line }),
        Err(CheckFault::ReadFault) => Err(ReportFault::ReadFault),
        Err(CheckFault::NoMemory) => Err(ReportFault::NoMemory),
    }
}
