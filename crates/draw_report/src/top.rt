//! The top call: the drawing of the report that a word names is written, that of its contours alone, or that of a further report over it.
//! What each outcome means for the desk stands in `report_lines` and in `specs/Overs.antt`.
ghost use Rattle.std.specs.Prelude.{◌≡◌, ◌≢◌, ◌↔◌, ◌∷◌, [], ℕ, List};
ghost use Rattle.shape_desk.specs.Files.{KeepsFiles, texts};
ghost use Rattle.report_lines.specs.Runs.{Ran, RanUpTo, RanFlat};
ghost use Rattle.drawing.specs.Svg.{most_drawing};
ghost use Rattle.draw_report.specs.Drawings.{IsDrawing, IsNumberedDrawing, IsContourDrawing};
ghost use Rattle.draw_report.specs.MeasureDrawings.{IsMeasuredDrawing};
ghost use Rattle.draw_report.specs.Overs.{RanOver};
ghost use Rattle.draw_report.specs.Words.{labels_word, contours_word, measures_word, AreNoForm};

use crate::drawings::{ContourDrawings, Drawings, NumberedDrawings};
use crate::measure_drawing::MeasureDrawings;
use crate::over::run_over;
use report_lines::{Outcome, run_flat, run_named, run_up_to};
use shape_desk::Desk;
use std::alloc::Global;

/// What the program says of words that it does not take.
pub const USAGE: &str =
    "usage: shape draw [labels|contours|measures] REPORT, shape draw REPORT FURTHER";

// A drawing of a flat picture that is written has so many bytes at most, but for that of its contours alone.
const MOST_DRAWING: usize = 50_000_000;

// Does what two words say.
fn run_two<D: Desk>(alloc: Global, word: &[u8], name: &[u8], desk: &mut D) -> Outcome
    ensures usage { result ≢ Outcome.Usage }
    ensures numbered { word.now ≡ labels_word → RanUpTo most_drawing IsNumberedDrawing name.now
        (D.state desk.old) (D.state desk.new) result }
    ensures contours { word.now ≡ contours_word
        → Ran IsContourDrawing name.now (D.state desk.old) (D.state desk.new) result }
    ensures measured { word.now ≡ measures_word → RanFlat most_drawing IsMeasuredDrawing name.now
        (D.state desk.old) (D.state desk.new) result }
    ensures over { word.now ≢ labels_word → word.now ≢ contours_word → word.now ≢ measures_word
        → RanOver word.now name.now (D.state desk.old) (D.state desk.new) result }
    ensures kept { KeepsFiles (D.state desk.old) (D.state desk.new) }
{
    if word == b"labels".as_slice() {
        run_up_to(alloc, &NumberedDrawings, MOST_DRAWING, name, desk)
    } else if word == b"contours".as_slice() {
        run_named(alloc, &ContourDrawings, name, desk)
    } else if word == b"measures".as_slice() {
        run_flat(alloc, &MeasureDrawings, MOST_DRAWING, name, desk)
    } else {
        run_over(alloc, word, name, desk)
    }
}

/// Does what the words of a command line say, without the program's name. One word is the name of a report's file, and its
/// drawing is written; of a flat picture with the numbers of its objects, where the word `labels` stands before, and without
/// the object and the skeleton, where the word `contours` stands before, and with the measures of its objects as lines, where
/// the word `measures` does: then the report of a volume is refused. Any other two words are the names of an analysis of a
/// flat picture and of a further report about it, which is drawn over its object; an analysis in a file `labels` is named
/// `./labels` there, and so are `./contours` and `./measures`.
///
/// A drawing of a flat picture's report with more than 50,000,000 bytes is not written, but for that of its contours alone.
///
/// The words are judged first, without memory and without the desk. Nothing is written before all of each report was read. A
/// report is not checked: what it claims is drawn as it stands. What it gives outside the box of its heading is not drawn.
/// Want of memory may be answered at any time after the words, and comes for a report of more than 2^61 lines as well.
pub fn run<D: Desk>(alloc: Global, words: &[Vec<u8>], desk: &mut D) -> Outcome
    ensures usage { (result ≡ Outcome.Usage) ↔ AreNoForm (texts words.now) }
    ensures untouched { result ≡ Outcome.Usage → desk.new ≡ desk.old }
    ensures drawn { (name : List ℕ) → texts words.now ≡ name ∷ []
        → RanUpTo most_drawing IsDrawing name (D.state desk.old) (D.state desk.new) result }
    ensures numbered { (name : List ℕ) → texts words.now ≡ labels_word ∷ name ∷ []
        → RanUpTo most_drawing IsNumberedDrawing name
        (D.state desk.old) (D.state desk.new) result }
    ensures contours { (name : List ℕ) → texts words.now ≡ contours_word ∷ name ∷ []
        → Ran IsContourDrawing name (D.state desk.old) (D.state desk.new) result }
    ensures measured { (name : List ℕ) → texts words.now ≡ measures_word ∷ name ∷ []
        → RanFlat most_drawing IsMeasuredDrawing name
        (D.state desk.old) (D.state desk.new) result }
    ensures over { (analysis further : List ℕ) → texts words.now ≡ analysis ∷ further ∷ []
        → analysis ≢ labels_word → analysis ≢ contours_word → analysis ≢ measures_word
        → RanOver analysis further (D.state desk.old) (D.state desk.new) result }
    ensures kept { KeepsFiles (D.state desk.old) (D.state desk.new) }
{
    match words {
        [name] => run_up_to(alloc, &Drawings, MOST_DRAWING, name.as_slice(), desk),
        [word, name] => run_two(alloc, word.as_slice(), name.as_slice(), desk),
        _ => Outcome::Usage,
    }
}
