//! The weights that refute a run, put behind a text.
//! A further kind of step is one more case of `put_step`; what weights show is no matter here.
ghost use Rattle.std.specs.Prelude.{◌≡◌, ◌≤◌, ◌+◌, ◌++◌, [], ◌∷◌, length};
ghost use Rattle.text_terms.specs.Forms.{counted};
ghost use Rattle.text_terms.specs.Weights.{step, share, step_share, why};
ghost use Rattle.shape_refute.specs.Shown.{share_of, shift_of, step_share_of};
ghost use Rattle.shape_refute.specs.Weights.{refutation_of};
ghost use Rattle.report_text.specs.Spelling.{behind_blanks};

use crate::text::Text;
use shape_refute::{Refutation, Share, Shares, Step, StepShare, StepShares};

// Puts a weight and a place.
fn put_share(one: Share, text: &mut Text)
    requires room { length text.old + 42 ≤ 1024 }
    requires range { share.InRange (share_of one) }
    ensures text { text.new ≡ text.old ++ behind_blanks (share.words (share_of one)) }
    ensures room { length text.new ≤ length text.old + 42 }
{
    text.weight(one.weight);
    text.count(one.place)
}

// Puts the number of places, and each with its weight.
fn put_shares(shares: &Shares, text: &mut Text)
    requires room { length text.old + 189 ≤ 1024 }
    requires range { (counted 4 share).InRange shares.now }
    ensures text { text.new ≡ text.old ++ behind_blanks ((counted 4 share).words shares.now) }
    ensures room { length text.new ≤ length text.old + 189 }
{
    text.count(shares.len() as u32);
    for i in 0..shares.len() {
        put_share(shares.get(i), text);
    }
}

// Puts the word of a step behind a blank.
fn put_step(one: Step, text: &mut Text)
    requires room { length text.old + 5 ≤ 1024 }
    requires axis { (step 3).InRange (shift_of one) }
    ensures text { text.new ≡ text.old ++ behind_blanks ((step 3).words (shift_of one)) }
    ensures room { length text.new ≤ length text.old + 5 }
{
    match one {
        Step::Up => text.put(b" up"),
        Step::Plus(axis) => {
            text.put(b" up+");
            text.letter(axis)
        }
        Step::Minus(axis) => {
            text.put(b" up-");
            text.letter(axis)
        }
    }
}

// Puts a weight and a step.
fn put_step_share(one: StepShare, text: &mut Text)
    requires room { length text.old + 42 ≤ 1024 }
    requires range { (step_share 3).InRange (step_share_of one) }
    ensures text { text.new ≡ text.old ++ behind_blanks ((step_share 3).words (step_share_of one)) }
    ensures room { length text.new ≤ length text.old + 42 }
{
    text.weight(one.weight);
    put_step(one.step, text)
}

// Puts the number of steps, and each with its weight.
fn put_step_shares(shares: &StepShares, text: &mut Text)
    requires room { length text.old + 189 ≤ 1024 }
    requires range { (counted 4 (step_share 3)).InRange shares.now }
    ensures text { text.new ≡ text.old ++ behind_blanks
        ((counted 4 (step_share 3)).words shares.now) }
    ensures room { length text.new ≤ length text.old + 189 }
{
    text.count(shares.len() as u32);
    for i in 0..shares.len() {
        put_step_share(shares.get(i), text);
    }
}

/// Puts the words of weights, each behind a blank.
pub fn put_why(weights: &Refutation, text: &mut Text)
    requires room { length text.old + 567 ≤ 1024 }
    requires range { (why 3).InRange (refutation_of weights.now) }
    ensures text { text.new ≡ text.old ++ behind_blanks
        ((why 3).words (refutation_of weights.now)) }
    ensures room { length text.new ≤ length text.old + 567 }
{
    put_shares(&weights.low, text);
    put_shares(&weights.high, text);
    put_step_shares(&weights.steps, text)
}
