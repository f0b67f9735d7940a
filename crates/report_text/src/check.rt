//! Checking a report line by line, up to the first bad one.
//! Which line is good next is known to the judge; this file knows of texts alone.
ghost use Rattle.std.specs.Prelude.{◌≡◌, ◌<◌, ◌≤◌, ◌+◌, ◌-◌, ◌^◌, [], ℕ, List, Option, true};
ghost use Rattle.shape_desk.specs.Desk.{OnlyReadsAt};
ghost use Rattle.shape_desk.specs.Line.{ahead_of};
ghost use Rattle.shape_desk.specs.declared.desk.Place.TheVariants.{Report};
ghost use Rattle.text_terms.specs.Reports.{report_of};
ghost use Rattle.report_text.specs.Checks.{HasCome, HasChecked, KeepsLines};

use crate::answer::{CheckFault, Judgement};
use crate::judge::ReportJudge;
use crate::line::ReportLine;
use crate::next::{Next, next_line};
use shape_desk::{Desk, LineReader};
use std::alloc::Global;

/// Checks what is left of a report, where the next line has this number and the judge stands for those before it.
///
/// What is said of `check_by` is true here of the whole text, whose first lines were read before.
pub fn check_from<L: ReportLine, J: ReportJudge<L>, D: Desk>(
    judge: &mut J,
    reader: &mut LineReader,
    desk: &mut D,
    first: u64,
) -> Result<Judgement, CheckFault>
    requires begun { (D.state desk.old).begun Report ≡ true }
    requires some { 1 ≤ first }
    requires few { first + J.room judge.old ≤ 2 ^ 63 }
    ensures checked { (X : J.About) (text : Option (List ℕ))
        → HasCome (report_of L.form L.last (J.good X)) (J.stands X judge.old) text
        (ahead_of reader.old.ahead ((D.state desk.old).left Report)) first
        → HasChecked (report_of L.form L.last (J.good X)) text
        (D.state desk.old) (D.state desk.new) result }
    ensures kept { (X : J.About) (text : Option (List ℕ))
        → HasCome (report_of L.form L.last (J.good X)) (J.stands X judge.old) text
        (ahead_of reader.old.ahead ((D.state desk.old).left Report)) first
        → KeepsLines (report_of L.form L.last (J.good X)) (J.stands X judge.new) text result }
    ensures reads { OnlyReadsAt Report (D.state desk.old) (D.state desk.new) }
    ensures same { (start : J) → J.same start judge.old → J.same start judge.new }
{
    let mut line = first;
    let mut claim = L::end();
    'lines: loop {
        match next_line::<L, D>(reader, desk, &mut claim)? {
            Next::Line => {
                if !judge.take(&claim)? {
                    return Ok(Judgement::No { line });
                }
                line += 1;
            }
            Next::Bad => return Ok(Judgement::No { line }),
            Next::End => {
                if judge.has_ended() {
                    return Ok(Judgement::Yes);
                }
                return Ok(Judgement::No { line });
            }
        }
    }
}

/// Checks the report that was begun at `Place::Report`, by a judge that has taken no line.
///
/// The file is read line by line and never whole: the bytes of its good lines are taken, and at most
/// 2048 more. `Yes` exactly where the report holds, and `No` exactly where its line is the first bad
/// one, where the desk tells the file; after `Yes` the judge stands for all of its lines. `ReadFault`
/// comes only where `read_faults` rose in this call.
pub fn check_by<L: ReportLine, J: ReportJudge<L>, D: Desk>(
    alloc: Global,
    judge: &mut J,
    desk: &mut D,
) -> Result<Judgement, CheckFault>
    requires begun { (D.state desk.old).begun Report ≡ true }
    requires few { J.room judge.old < 2 ^ 62 - 1 }
    ensures checked { (X : J.About) → J.stands X judge.old []
        → HasChecked (report_of L.form L.last (J.good X)) ((D.state desk.old).left Report)
        (D.state desk.old) (D.state desk.new) result }
    ensures kept { (X : J.About) → J.stands X judge.old []
        → KeepsLines (report_of L.form L.last (J.good X)) (J.stands X judge.new)
        ((D.state desk.old).left Report) result }
    ensures reads { OnlyReadsAt Report (D.state desk.old) (D.state desk.new) }
    ensures same { (start : J) → J.same start judge.old → J.same start judge.new }
{
    let mut reader = LineReader::new(alloc)?;
    check_from(judge, &mut reader, desk, 1)
}
