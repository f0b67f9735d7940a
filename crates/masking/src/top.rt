//! The top call: the mask of the report that a word names is written.
//! What each outcome means for the desk stands in `report_lines`.
ghost use Rattle.std.specs.Prelude.{◌≡◌, ◌≢◌, ◌↔◌, ◌∷◌, [], ℕ, List};
ghost use Rattle.shape_desk.specs.Files.{texts, KeepsFiles};
ghost use Rattle.report_lines.specs.Made.{exactly};
ghost use Rattle.report_lines.specs.Runs.{Ran};
ghost use Rattle.masking.specs.Masks.{mask_bytes};
ghost use Rattle.masking.specs.Words.{mask_word};

use crate::mask::{Mask, mask_called};
use report_lines::{Outcome, run_named};
use shape_desk::Desk;
use std::alloc::Global;

/// What the program says of words that it does not take.
pub const USAGE: &str = "usage: shape mask skeleton|object|distances|squares|thickness REPORT";

/// Does what the words of a command line say, without the program's name: the first is that of a mask, the second the name of
/// a report's file, and the mask is written.
///
/// The words are judged first, without memory and without the desk. Nothing is written before the whole report was read. The
/// report is not checked: what it claims is masked as it stands.
pub fn run<D: Desk>(alloc: Global, words: &[Vec<u8>], desk: &mut D) -> Outcome
    ensures usage { (result ≡ Outcome.Usage)
        ↔ ((mask : Mask) (name : List ℕ) → texts words.now ≢ mask_word mask ∷ name ∷ []) }
    ensures untouched { result ≡ Outcome.Usage → desk.new ≡ desk.old }
    ensures ran { (mask : Mask) (name : List ℕ) → texts words.now ≡ mask_word mask ∷ name ∷ []
        → Ran (exactly (mask_bytes mask)) name (D.state desk.old) (D.state desk.new) result }
    ensures kept { KeepsFiles (D.state desk.old) (D.state desk.new) }
{
    let [word, name] = words else {
        return Outcome::Usage;
    };
    match mask_called(word.as_slice()) {
        Some(mask) => run_named(alloc, &mask, name.as_slice(), desk),
        None => Outcome::Usage,
    }
}
