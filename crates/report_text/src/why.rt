//! The weights that refute a run, read from the words of a line.
//! A further kind of step is one more case of `any_step` or of `step_along`; what weights show is no matter here.
ghost use Rattle.std.specs.Prelude.{◌≡◌, ◌≤◌, ◌↔◌, IsTrue, ◌+◌, ◌++◌, [], ◌∷◌, length};
ghost use Rattle.text_terms.specs.Forms.{natural, counted};
ghost use Rattle.text_terms.specs.Weights.{step, IsStepIn, share, step_share, why};
ghost use Rattle.shape_refute.specs.Shown.{share_of, shift_of, step_share_of};
ghost use Rattle.shape_refute.specs.Weights.{refutation_of};
ghost use Rattle.report_text.specs.Reading.{ReadsForm};

use crate::field::{count, weight};
use crate::words::Words;
use shape_refute::{Refutation, Share, Shares, Step, StepShare, StepShares};

// A list of weights has fewer entries.
const TOO_MANY: u32 = 5;

// Reads a weight and a place.
fn share(words: &mut Words) -> Option<Share>
    ensures { ReadsForm share_of share words.old words.new result }
{
    let weight = weight(words)?;
    let place = count(words)?;
    Some(Share { weight, place })
}

// Reads how many entries a list of weights has.
fn few(words: &mut Words) -> Option<u32>
    ensures { ReadsForm (λ n. n) (natural 5) words.old words.new result }
{
    let len = count(words)?;
    if len < TOO_MANY { Some(len) } else { None }
}

// Reads the number of places, and each with its weight.
fn shares(words: &mut Words) -> Option<Shares>
    ensures { ReadsForm (λ s. s) (counted 4 share) words.old words.new result }
{
    let len = few(words)?;
    let mut shares = Shares::new();
    for _ in 0..len {
        shares.push(share(words)?);
    }
    Some(shares)
}

// The step along an axis of space that a sign and a letter name.
fn step_along(sign: u8, letter: u8) -> Option<Step>
    ensures { (left : _) → ReadsForm shift_of (step 3)
        ((117 ∷ 112 ∷ sign ∷ letter ∷ []) ∷ left) left result }
{
    if letter < b'x' || letter > b'z' {
        return None;
    }
    match sign {
        b'+' => Some(Step::Plus(letter - b'x')),
        b'-' => Some(Step::Minus(letter - b'x')),
        _ => None,
    }
}

// Reads the word of a step of space.
fn any_step(words: &mut Words) -> Option<Step>
    ensures { ReadsForm shift_of (step 3) words.old words.new result }
{
    match *words.next_word()? {
        [b'u', b'p'] => Some(Step::Up),
        [b'u', b'p', sign, letter] => step_along(sign, letter),
        _ => None,
    }
}

// Whether a step names an axis of a space of `dim` axes, if any.
fn is_step_in(step: Step, dim: u8) -> bool
    ensures { IsTrue result ↔ IsStepIn dim (shift_of step) }
{
    match step {
        Step::Up => true,
        Step::Plus(axis) | Step::Minus(axis) => axis < dim,
    }
}

// Reads the word of a step of a space of `dim` axes.
fn step(words: &mut Words, dim: u8) -> Option<Step>
    requires { dim ≤ 3 }
    ensures { ReadsForm shift_of (step dim) words.old words.new result }
{
    let step = any_step(words)?;
    if is_step_in(step, dim) {
        Some(step)
    } else {
        None
    }
}

// Reads a weight and a step.
fn step_share(words: &mut Words, dim: u8) -> Option<StepShare>
    requires { dim ≤ 3 }
    ensures { ReadsForm step_share_of (step_share dim) words.old words.new result }
{
    let weight = weight(words)?;
    let step = step(words, dim)?;
    Some(StepShare { weight, step })
}

// Reads the number of steps, and each with its weight.
fn step_shares(words: &mut Words, dim: u8) -> Option<StepShares>
    requires { dim ≤ 3 }
    ensures { ReadsForm (λ s. s) (counted 4 (step_share dim)) words.old words.new result }
{
    let len = few(words)?;
    let mut shares = StepShares::new();
    for _ in 0..len {
        shares.push(step_share(words, dim)?);
    }
    Some(shares)
}

/// Reads the words of weights in a space of `dim` axes: the low, the high and the step entries, each list behind the number of its entries, which is 4
/// at most. `None` exactly where no weights have a spelling that the words begin with.
pub fn read_why(words: &mut Words, dim: u8) -> Option<Refutation>
    requires { dim ≤ 3 }
    ensures { ReadsForm refutation_of (why dim) words.old words.new result }
{
    let low = shares(words)?;
    let high = shares(words)?;
    let steps = step_shares(words, dim)?;
    Some(Refutation { low, high, steps })
}
